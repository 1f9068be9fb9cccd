ghost use Rattle.std.specs.Prelude.{◌≡◌, IfOk};

use crate::{
    ConstValue, DataField, DataFieldList, Field, FieldList, Group, Header, Kind, Level, LevelList,
    Member, Named, NamedList, WireSchema,
};
use lists::{List, NoMem, Text};
use std::alloc::Global;

impl Named {
    /// Makes an equal copy.
    pub fn copy(&self, alloc: Global) -> Result<Named, NoMem>
        ensures { IfOk result (λ it. it ≡ self.now) }
    {
        let name = copied_text(alloc, &self.name)?;
        Ok(Named {
            name,
            number: self.number,
        })
    }
}

impl ConstValue {
    /// Makes an equal copy.
    pub fn copy(&self, alloc: Global) -> Result<ConstValue, NoMem>
        ensures { IfOk result (λ it. it ≡ self.now) }
    {
        match self {
            ConstValue::Num(n) => Ok(ConstValue::Num(*n)),
            ConstValue::Text(text) => Ok(ConstValue::Text(copied_text(alloc, text)?)),
            ConstValue::Code(prim, named) => Ok(ConstValue::Code(*prim, named.copy(alloc)?)),
        }
    }
}

impl Kind {
    /// Makes an equal kind.
    #[cycle(kind)]
    pub fn copy(&self, alloc: Global) -> Result<Kind, NoMem>
        ensures { IfOk result (λ it. it ≡ self.now) }
    {
        match self {
            Kind::Leaf(leaf) => Ok(Kind::Leaf(*leaf)),
            Kind::Enum(leaf, names) => Ok(Kind::Enum(*leaf, copied_names(alloc, names)?)),
            Kind::Set(prim, names) => Ok(Kind::Set(*prim, copied_names(alloc, names)?)),
            Kind::Comp(members) => Ok(Kind::Comp(copied_members(alloc, members)?)),
            Kind::Const(value) => Ok(Kind::Const(value.copy(alloc)?)),
        }
    }
}

impl Member {
    /// Makes an equal member.
    pub fn copy(&self, alloc: Global) -> Result<Member, NoMem>
        ensures { IfOk result (λ it. it ≡ self.now) }
    {
        let name = copied_text(alloc, &self.name)?;
        let kind = self.kind.copy(alloc)?;
        Ok(Member {
            name,
            offset: self.offset,
            kind,
        })
    }
}

#[cycle(kind)]
fn copied_members(alloc: Global, members: &List<Member>) -> Result<List<Member>, NoMem>
    ensures { IfOk result (λ it. it ≡ members.now) }
{
    let mut out = List::new(alloc);
    for member in members.as_slice() {
        let name = copied_text(alloc, &member.name)?;
        let kind = member.kind.copy(alloc)?;
        out.push(Member {
            name,
            offset: member.offset,
            kind,
        })?;
    }
    Ok(out)
}

fn copied_text(alloc: Global, text: &Text) -> Result<Text, NoMem>
    ensures { IfOk result (λ it. it ≡ text.now) }
{
    List::from_slice(alloc, text.as_slice())
}

fn copied_names(alloc: Global, names: &NamedList) -> Result<NamedList, NoMem>
    ensures { IfOk result (λ it. it ≡ names.now) }
{
    let mut out = List::new(alloc);
    for named in names.as_slice() {
        out.push(named.copy(alloc)?)?;
    }
    Ok(out)
}

impl Field {
    /// Makes an equal field.
    pub fn copy(&self, alloc: Global) -> Result<Field, NoMem>
        ensures { IfOk result (λ it. it ≡ self.now) }
    {
        let name = copied_text(alloc, &self.name)?;
        let kind = self.kind.copy(alloc)?;
        Ok(Field {
            name,
            id: self.id,
            since: self.since,
            offset: self.offset,
            kind,
        })
    }
}

impl DataField {
    /// Makes an equal data part.
    pub fn copy(&self, alloc: Global) -> Result<DataField, NoMem>
        ensures { IfOk result (λ it. it ≡ self.now) }
    {
        let name = copied_text(alloc, &self.name)?;
        Ok(DataField {
            name,
            id: self.id,
            since: self.since,
            length: self.length,
        })
    }
}

impl Level {
    /// Makes an equal level.
    #[cycle(level)]
    pub fn copy(&self, alloc: Global) -> Result<Level, NoMem>
        ensures { IfOk result (λ it. it ≡ self.now) }
    {
        let name = copied_text(alloc, &self.name)?;
        let semantic = copied_text(alloc, &self.semantic)?;
        let fields = copied_fields(alloc, &self.fields)?;
        let groups = copied_groups(alloc, &self.groups)?;
        let parts = copied_parts(alloc, &self.parts)?;
        Ok(Level {
            name,
            id: self.id,
            semantic,
            since: self.since,
            block_length: self.block_length,
            fields,
            groups,
            parts,
        })
    }
}

#[cycle(level)]
fn copied_groups(alloc: Global, groups: &List<Group>) -> Result<List<Group>, NoMem>
    ensures { IfOk result (λ it. it ≡ groups.now) }
{
    let mut out = List::new(alloc);
    for group in groups.as_slice() {
        let dim = copied_members(alloc, &group.dim)?;
        let level = group.level.copy(alloc)?;
        out.push(Group { dim, level })?;
    }
    Ok(out)
}

fn copied_fields(alloc: Global, fields: &FieldList) -> Result<FieldList, NoMem>
    ensures { IfOk result (λ it. it ≡ fields.now) }
{
    let mut out = List::new(alloc);
    for field in fields.as_slice() {
        out.push(field.copy(alloc)?)?;
    }
    Ok(out)
}

fn copied_parts(alloc: Global, parts: &DataFieldList) -> Result<DataFieldList, NoMem>
    ensures { IfOk result (λ it. it ≡ parts.now) }
{
    let mut out = List::new(alloc);
    for part in parts.as_slice() {
        out.push(part.copy(alloc)?)?;
    }
    Ok(out)
}

fn copied_levels(alloc: Global, levels: &LevelList) -> Result<LevelList, NoMem>
    ensures { IfOk result (λ it. it ≡ levels.now) }
{
    let mut out = List::new(alloc);
    for level in levels.as_slice() {
        out.push(level.copy(alloc)?)?;
    }
    Ok(out)
}

impl WireSchema {
    /// Makes an equal schema.
    pub fn copy(&self, alloc: Global) -> Result<WireSchema, NoMem>
        ensures { IfOk result (λ it. it ≡ self.now) }
    {
        let members = copied_members(alloc, &self.header.members)?;
        let messages = copied_levels(alloc, &self.messages)?;
        Ok(WireSchema {
            id: self.id,
            version: self.version,
            order: self.order,
            header: Header { members },
            messages,
        })
    }
}
