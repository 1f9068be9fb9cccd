// The texts of paths.
ghost use Rattle.std.specs.Prelude.{◌≡◌, ◌<◌, ◌++◌, Bool, true, length, slice_get, Some, IsSome};
ghost use Rattle.std.specs.Option.{option_map};
ghost use Rattle.layout_tables.specs.Paths.{IsPathOf, path_text, level_parts, kind_parts, member_part, parts_inside, stepped, bracketed, dot};
ghost use Rattle.path_text.specs.Walks.{inside_of, step_text};
ghost use Rattle.printers.specs.Prints.{Prints};

use itoa::Buffer;
use layout_tables::Layout;
use printers::Printer;
use sbe_base::Sink;
use sbe_types::{Kind, Level, Member, Path, Step};

/// What a path leads to.
#[derive(Clone, Copy)]
enum Place<'a> {
    /// A message's root, or an entry of a group.
    Level(&'a Level),
    /// A group, before one of its entries.
    Group(&'a Level),
    /// A field, or a composite's member.
    Kind(&'a Kind),
    /// Something without parts.
    Nothing,
}

/// The name of part `i` of a level: first its fields, then its groups, then its data. Requires a part in range.
fn level_name(level: &Level, i: usize) -> &[u8]
    requires { i < length (level_parts level.now) }
    ensures { option_map (λ p. p.name) (slice_get (level_parts level.now) i) ≡ Some result.now }
{
    let fields = level.fields.as_slice();
    let groups = level.groups.as_slice();
    if i < fields.len() {
        return fields[i].name.as_slice();
    }
    let after = i - fields.len();
    if after < groups.len() {
        return groups[after].level.name.as_slice();
    }
    level.parts.as_slice()[after - groups.len()].name.as_slice()
}

/// What is inside part `i` of a level.
fn level_part(level: &Level, i: usize) -> Place<'_>
    requires { i < length (level_parts level.now) }
    ensures { option_map (λ p. p.inside) (slice_get (level_parts level.now) i) ≡ Some (inside_of result) }
{
    let fields = level.fields.as_slice();
    let groups = level.groups.as_slice();
    if i < fields.len() {
        return Place::Kind(&fields[i].kind);
    }
    let after = i - fields.len();
    if after < groups.len() {
        return Place::Group(&groups[after].level);
    }
    Place::Nothing
}

/// Prints a number in brackets.
fn put_index<O: Sink>(printer: &mut Printer<'_, O>, i: u32)
    ensures { Prints O.state printer.old printer.new (bracketed i) }
{
    let mut buffer = Buffer::new();
    printer.put(b"[");
    printer.put(buffer.format(i).as_bytes());
    printer.put(b"]");
}

/// Prints a name, preceded by a dot unless it is the first.
fn put_name<O: Sink>(printer: &mut Printer<'_, O>, first: bool, name: &[u8])
    ensures { Prints O.state printer.old printer.new (dot first ++ name.now) }
{
    if !first {
        printer.put(b".");
    }
    printer.put(name);
}

/// Member `i` of a composite. Requires a member in range.
fn member_of(kind: &Kind, i: usize) -> &Member
    requires { i < length (kind_parts kind.now) }
    ensures { slice_get (kind_parts kind.now) i ≡ Some (member_part result.now) }
{
    match kind {
        Kind::Comp(members) => members.at(i),
        Kind::Leaf(_) | Kind::Enum(_, _) | Kind::Set(_, _) | Kind::Const(_) => unreachable!(),
    }
}

/// The name of part `i` of a place. Requires a part in range.
fn part_name<'a>(place: Place<'a>, i: usize) -> &'a [u8]
    requires { i < length (parts_inside (inside_of place)) }
    ensures { option_map (λ p. p.name) (slice_get (parts_inside (inside_of place.entry)) i) ≡ Some result.now }
{
    match place {
        Place::Level(level) => level_name(level, i),
        Place::Kind(kind) => member_of(kind, i).name.as_slice(),
        Place::Group(_) | Place::Nothing => unreachable!(),
    }
}

/// What is inside part `i` of a place. Requires a part in range.
fn part_inside<'a>(place: Place<'a>, i: usize) -> Place<'a>
    requires { i < length (parts_inside (inside_of place)) }
    ensures { option_map (λ p. p.inside) (slice_get (parts_inside (inside_of place.entry)) i) ≡ Some (inside_of result) }
{
    match place {
        Place::Level(level) => level_part(level, i),
        Place::Kind(kind) => Place::Kind(&member_of(kind, i).kind),
        _ => unreachable!(),
    }
}

/// Where a step leads. Requires a step that leads somewhere.
fn place_behind<'a>(place: Place<'a>, step: Step) -> Place<'a>
    requires { IsSome (stepped true (inside_of place) step) }
    ensures { (first : Bool) → option_map (λ s. s.inside) (stepped first (inside_of place.entry) step) ≡ Some (inside_of result) }
{
    match step {
        Step::Part(i) => part_inside(place, i as usize),
        Step::Entry(_) => match place {
            Place::Group(level) => Place::Level(level),
            Place::Level(_) | Place::Kind(_) | Place::Nothing => unreachable!(),
        },
        Step::Elem(_) => Place::Nothing,
    }
}

/// Prints the text of a step. Requires a step that leads somewhere.
fn put_step<O: Sink>(printer: &mut Printer<'_, O>, first: bool, place: Place<'_>, step: Step)
    requires { IsSome (stepped first (inside_of place) step) }
    ensures { Prints O.state printer.old printer.new (step_text (stepped first (inside_of place.entry) step)) }
{
    match step {
        Step::Part(i) => put_name(printer, first, part_name(place, i as usize)),
        Step::Entry(i) | Step::Elem(i) => put_index(printer, i),
    }
}

/// Prints the text of a path, such as `legs[2].subs[0].price.mantissa`. Allocates nothing. Requires a path of this
/// template.
pub fn put_path<O: Sink>(
    printer: &mut Printer<'_, O>,
    layout: &Layout,
    template: usize,
    path: &Path,
)
    requires { IsPathOf layout.now template path.now }
    ensures { Prints O.state printer.old printer.new (path_text layout.now template path.now) }
{
    let mut place = Place::Level(layout.message(template));
    let mut first = true;
    for i in 0..path.len() {
        let step = path.step(i);
        put_step(printer, first, place, step);
        place = place_behind(place, step);
        first = false;
    }
}
