ghost use Rattle.std.specs.Prelude.{◌≡◌, ◌++◌, map, flat_map, IfOk};
ghost use Rattle.sbe_types.specs.InForm.{IsInForm};
ghost use Rattle.schema_rules.specs.Judging.{Gives};
ghost use Rattle.schema_rules.specs.Names.{types_in, messages_in};
ghost use Rattle.schema_rules.specs.Resolved.{resolved, resolved_message};
ghost use Rattle.schema_rules.specs.Checked.{checked_of};
ghost use Rattle.schema_laws.specs.Questions.{check_by, questions};
ghost use Rattle.schema_check.specs.Reach.{AreShortMessages};

use crate::checked::Checked;
use crate::judging::judge;
use crate::levels::resolve_message;
use lists::{List, NoMem};
use sbe_types::{Header, LevelList, MessageEl, Schema, SchemaItem, TypesItem, WireSchema};
use schema_rules::CheckErr;
use std::alloc::Global;
use type_facts::Declarations;
use type_kinds::Resolver;

/// Checks a schema whose names and numbers are well-formed, and returns it with every type name resolved.
///
/// # Errors
///
/// `Refused` with the first broken rule of the list of all rules that apply to the schema, and the path of the element
/// that breaks it. `Memory` if memory runs out.
#[tactic(auto, using(schema_laws::proofs::Questions::answer_is))]
pub fn check(alloc: Global, schema: Schema) -> Result<Checked, CheckErr>
    requires form { IsInForm schema }
    ensures first { Gives result (check_by (questions schema) (resolved schema)) }
    ensures judged { Gives result (checked_of schema) }
{
    let resolved = resolve_schema(alloc, schema)?;
    Ok(Checked::new(resolved))
}

/// The schema with every type name resolved, or the first rule that it breaks.
fn resolve_schema(alloc: Global, schema: Schema) -> Result<WireSchema, CheckErr>
    ensures { Gives result (checked_of schema) }
{
    let children = split(alloc, schema.children)?;
    let known = Declarations::new(alloc, children.types)?;
    let header_type = schema.header_type;
    let messages = children.messages;
    judge(
        alloc,
        &known,
        header_type.as_slice(),
        schema.id,
        schema.version,
        messages.as_slice(),
    )?;
    let resolver = Resolver::new(alloc, known)?;
    Ok(WireSchema {
        id: schema.id,
        version: schema.version,
        order: schema.byte_order,
        header: Header {
            members: resolver.members_named(alloc, header_type.as_slice())?,
        },
        messages: resolve_messages(alloc, &resolver, messages.as_slice())?,
    })
}

/// The declared types of a schema and its messages, each in the schema's order.
#[derive(Drop)]
struct Children {
    types: Vec<TypesItem>,
    messages: Vec<MessageEl>,
}

fn split(alloc: Global, items: List<SchemaItem>) -> Result<Children, NoMem>
    ensures types { IfOk result (λ children. children.types.items ≡ flat_map types_in items) }
    ensures messages { IfOk result (λ children. children.messages.items ≡ flat_map messages_in items) }
{
    let mut children = Children {
        types: Vec::new(alloc),
        messages: Vec::new(alloc),
    };
    for item in items.into_vec() {
        children = with_item(children, item)?;
    }
    Ok(children)
}

fn with_item(mut children: Children, item: SchemaItem) -> Result<Children, NoMem>
    ensures types { IfOk result (λ made. made.types.items ≡ children.types.items ++ types_in item) }
    ensures messages { IfOk result (λ made. made.messages.items ≡ children.messages.items ++ messages_in item) }
{
    match item {
        SchemaItem::Types(el) => {
            let mut types = el.children.into_vec();
            children.types.append(&mut types)?;
        }
        SchemaItem::Message(message) => children.messages.push(message)?,
    }
    Ok(children)
}

fn resolve_messages(
    alloc: Global,
    resolver: &Resolver,
    messages: &[MessageEl],
) -> Result<LevelList, NoMem>
    requires { AreShortMessages resolver.now messages.now }
    ensures { IfOk result (λ levels. levels ≡ map (resolved_message resolver.now) messages.now) }
{
    let mut levels = List::new(alloc);
    for message in messages {
        levels.push(resolve_message(alloc, resolver, message)?)?;
    }
    Ok(levels)
}
