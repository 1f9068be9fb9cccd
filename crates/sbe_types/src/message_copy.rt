ghost use Rattle.std.specs.Prelude.{◌≡◌, IfOk};

use crate::{Block, DataVal, DataValList, GroupVal, Msg, Value};
use lists::{List, NoMem};
use std::alloc::Global;

impl Value {
    /// Makes an equal value.
    #[cycle(value_copy)]
    pub fn copy(&self, alloc: Global) -> Result<Value, NoMem>
        ensures { IfOk result (λ it. it ≡ self.now) }
    {
        match self {
            Value::Num(n) => Ok(Value::Num(*n)),
            Value::Null => Ok(Value::Null),
            Value::Text(bytes) => Ok(Value::Text(List::from_slice(alloc, bytes.as_slice())?)),
            Value::Nums(elems) => Ok(Value::Nums(List::from_slice(alloc, elems.as_slice())?)),
            Value::Enum(n) => Ok(Value::Enum(*n)),
            Value::Set(bits) => Ok(Value::Set(*bits)),
            Value::Comp(values) => Ok(Value::Comp(copied_values(alloc, values)?)),
            Value::Const => Ok(Value::Const),
            Value::Absent => Ok(Value::Absent),
        }
    }
}

#[cycle(value_copy)]
fn copied_values(alloc: Global, values: &List<Value>) -> Result<List<Value>, NoMem>
    ensures { IfOk result (λ it. it ≡ values.now) }
{
    let mut out = List::new(alloc);
    for value in values.as_slice() {
        out.push(value.copy(alloc)?)?;
    }
    Ok(out)
}

impl DataVal {
    /// Makes an equal data part.
    pub fn copy(&self, alloc: Global) -> Result<DataVal, NoMem>
        ensures { IfOk result (λ it. it ≡ self.now) }
    {
        match self {
            DataVal::Absent => Ok(DataVal::Absent),
            DataVal::Bytes(bytes) => {
                Ok(DataVal::Bytes(List::from_slice(alloc, bytes.as_slice())?))
            }
        }
    }
}

fn copied_data(alloc: Global, parts: &DataValList) -> Result<DataValList, NoMem>
    ensures { IfOk result (λ it. it ≡ parts.now) }
{
    let mut out = List::new(alloc);
    for part in parts.as_slice() {
        out.push(part.copy(alloc)?)?;
    }
    Ok(out)
}

impl Block {
    /// Makes an equal block.
    #[cycle(block_copy)]
    pub fn copy(&self, alloc: Global) -> Result<Block, NoMem>
        ensures { IfOk result (λ it. it ≡ self.now) }
    {
        let fields = copied_values(alloc, &self.fields)?;
        let groups = copied_groups(alloc, &self.groups)?;
        let parts = copied_data(alloc, &self.parts)?;
        Ok(Block {
            fields,
            groups,
            parts,
        })
    }
}

impl GroupVal {
    /// Makes an equal group.
    #[cycle(block_copy)]
    pub fn copy(&self, alloc: Global) -> Result<GroupVal, NoMem>
        ensures { IfOk result (λ it. it ≡ self.now) }
    {
        match self {
            GroupVal::Absent => Ok(GroupVal::Absent),
            GroupVal::Entries(entries) => Ok(GroupVal::Entries(copied_entries(alloc, entries)?)),
        }
    }
}

#[cycle(block_copy)]
fn copied_groups(alloc: Global, groups: &List<GroupVal>) -> Result<List<GroupVal>, NoMem>
    ensures { IfOk result (λ it. it ≡ groups.now) }
{
    let mut out = List::new(alloc);
    for group in groups.as_slice() {
        out.push(group.copy(alloc)?)?;
    }
    Ok(out)
}

#[cycle(block_copy)]
fn copied_entries(alloc: Global, entries: &List<Block>) -> Result<List<Block>, NoMem>
    ensures { IfOk result (λ it. it ≡ entries.now) }
{
    let mut out = List::new(alloc);
    for entry in entries.as_slice() {
        out.push(entry.copy(alloc)?)?;
    }
    Ok(out)
}

impl Msg {
    /// Makes an equal message.
    pub fn copy(&self, alloc: Global) -> Result<Msg, NoMem>
        ensures { IfOk result (λ it. it ≡ self.now) }
    {
        let block = self.block.copy(alloc)?;
        Ok(Msg {
            template: self.template,
            version: self.version,
            block,
        })
    }
}
