// Fast validity checks of the values of a block, by the rows of its table. `false` means unknown, not invalid.
ghost use Rattle.std.specs.Prelude.{◌≡◌, ◌↔◌, ◌≤◌, ◌||◌, Bool, IsTrue, not, true, length, pos, None};
ghost use Rattle.sbe_types.specs.declared.kind.Kind.{Leaf as LeafKind};
ghost use Rattle.sbe_types.specs.declared.kind.Order.TheVariants.{Little};
ghost use Rattle.sbe_types.specs.Numbers.{number_of, prim_width, read_as};
ghost use Rattle.sbe_types.specs.Places.{width};
ghost use Rattle.sbe_types.specs.LeafBad.{leaf_bad};
ghost use Rattle.sbe_types.specs.Shown.{is_listed, is_null};
ghost use Rattle.schema_facts.specs.InOrder.{IsKindInOrder, IsLeafInOrder};
ghost use Rattle.schema_rules.specs.TypeRules.{is_set_primitive};
ghost use Rattle.flat_rows.specs.BlockChecks.{bytes_there, ScalarsShow, ShowsSome};
ghost use Rattle.flat_rows.specs.Quick.{is_between, is_none, is_text_within, is_word, IsByte, KeepsBits};
ghost use Rattle.flat_rows.specs.Tables.{stands_for, IsRow, IsTable, RowsFit};

use crate::bytes::is_valid;
use crate::rows::{FlatRow, FlatRows, Look, Quick};
use crate::runs::{LANES, is_lane_text, run_between};
use byteorder::{ByteOrder, LittleEndian};
use named_numbers::is_listed;
use sbe_types::{Kind, Leaf, LeafCause, LeafFault, NamedList, Order, Prim, get_num, leaf_judge};

/// Whether each value of a table is inside a block.
pub fn fits(table: &FlatRows, block: &[u8]) -> bool
    ensures { IsTrue result ↔ RowsFit (length block.now) table.now.rows.items }
{
    for row in table.rows.as_slice() {
        if row.end as usize > block.len() {
            return false;
        }
    }
    true
}

/// Whether the fast check accepts each value of a block, in little-endian order. `false` is inconclusive.
#[inline(always)]
pub fn shows_all(table: &FlatRows, known: bool, block: &[u8]) -> bool
    requires table { IsTable table.now }
    requires fits { RowsFit (length block.now) table.now.rows.items }
    ensures { result ≡ true → ScalarsShow Little known (stands_for table.now) block.now }
{
    for row in table.rows.as_slice() {
        if !shows_row(row, known, block) {
            return false;
        }
    }
    true
}

/// Whether the fast check accepts the value of a row.
#[inline(always)]
fn shows_row(row: &FlatRow, known: bool, block: &[u8]) -> bool
    requires row { IsRow row.now }
    requires fits { row.now.end ≤ length block.now }
    ensures { result ≡ true → ShowsSome Little known row.now.kind (bytes_there row.now.kind row.now.place block.now) }
{
    shows_value(row, known, &block[row.place as usize..row.end as usize])
}

/// Whether the fast check accepts these bytes as the value of a row.
#[inline(always)]
fn shows_value(row: &FlatRow, known: bool, bytes: &[u8]) -> bool
    requires row { IsRow row.now }
    requires wide { length bytes.now ≡ width row.now.kind }
    ensures { result ≡ true → ShowsSome Little known row.now.kind bytes.now }
{
    let quick = &row.quick;
    match quick.look {
        Look::I8 => shows_number(quick, number_in(Prim::I8, bytes)),
        Look::I16 => shows_number(quick, number_in(Prim::I16, bytes)),
        Look::I32 => shows_number(quick, number_in(Prim::I32, bytes)),
        Look::I64 => shows_number(quick, number_in(Prim::I64, bytes)),
        Look::U8 => shows_number(quick, number_in(Prim::U8, bytes)),
        Look::U16 => shows_number(quick, number_in(Prim::U16, bytes)),
        Look::U32 => shows_number(quick, number_in(Prim::U32, bytes)),
        Look::Text => is_text(quick, bytes),
        Look::Enum => shows_listed(known, row, bytes),
        Look::Set => shows_set(quick, &row.kind, bytes),
        Look::Other => shows_kind(&row.kind, bytes),
    }
}

/// The number that the bytes of one primitive encode, in little-endian order.
#[inline(always)]
pub fn number_in(prim: Prim, bytes: &[u8]) -> i64
    requires word { is_word prim ≡ true }
    requires wide { length bytes.now ≡ prim_width prim }
    ensures { result ≡ number_of Little prim bytes.now }
{
    read_word::<LittleEndian>(prim, bytes)
}

#[inline(always)]
fn read_word<O: ByteOrder>(prim: Prim, bytes: &[u8]) -> i64
    requires word { is_word prim ≡ true }
    requires wide { length bytes.now ≡ prim_width prim }
    ensures { result ≡ read_as O.number_of prim bytes.now }
{
    match prim {
        Prim::I8 => bytes[0].cast_signed() as i64,
        Prim::I16 => O::read_i16(bytes) as i64,
        Prim::I32 => O::read_i32(bytes) as i64,
        Prim::I64 => O::read_i64(bytes),
        Prim::U8 => bytes[0] as i64,
        Prim::U16 => O::read_u16(bytes) as i64,
        Prim::U32 => O::read_u32(bytes) as i64,
        Prim::U64 | Prim::Char => 0,
    }
}

/// Whether a number is the null, or within the range.
#[inline(always)]
fn shows_number(quick: &Quick, n: i64) -> bool
    ensures { result ≡ (is_none quick.now n || is_between quick.now n) }
{
    is_none(quick, n) || (quick.low <= n && n <= quick.high)
}

/// Whether a number is the null.
#[inline(always)]
pub fn is_none(quick: &Quick, n: i64) -> bool
    ensures { result ≡ is_none quick.now n }
{
    quick.optional && n == quick.null
}

/// Whether the bytes up to the first 00 are within the range.
#[inline(always)]
fn is_text(quick: &Quick, bytes: &[u8]) -> bool
    requires low { IsByte quick.now.low }
    requires high { IsByte quick.now.high }
    ensures { result ≡ is_text_within quick.now bytes.now }
{
    let low = as_byte(quick.low);
    let high = as_byte(quick.high);
    if bytes.len() == LANES && low > 0 {
        return is_lane_text(low, high, bytes);
    }
    let run = run_between(low, high, bytes);
    if run < bytes.len() {
        return bytes[run] == 0;
    }
    true
}

/// A number that fits a byte, as a byte.
#[inline(always)]
fn as_byte(n: i64) -> u8
    requires { IsByte n }
    ensures { pos result ≡ n }
{
    n as u8
}

/// Whether the fast check accepts bytes as a value of a kind that is neither an enum nor a set.
fn shows_kind(kind: &Kind, bytes: &[u8]) -> bool
    requires order { IsKindInOrder kind.now }
    requires wide { length bytes.now ≡ width kind.now }
    ensures { result ≡ true → (known : Bool) → ShowsSome Little known kind.now bytes.now }
{
    match kind {
        Kind::Leaf(leaf) => shows_leaf(leaf, bytes),
        Kind::Enum(_, _) | Kind::Set(_, _) | Kind::Comp(_) | Kind::Const(_) => false,
    }
}

/// Whether bytes are a value of a row whose kind is an enum.
#[inline(always)]
fn shows_listed(known: bool, row: &FlatRow, bytes: &[u8]) -> bool
    requires row { IsRow row.now }
    requires wide { length bytes.now ≡ width row.now.kind }
    ensures { result ≡ true → ShowsSome Little known row.now.kind bytes.now }
{
    if is_valid(&row.valid, bytes) {
        return true;
    }
    shows_kind_listed(known, &row.kind, bytes)
}

/// Whether bytes are a value of a kind that is an enum.
#[inline(always)]
#[tactic(auto, using(crate::proofs::Looks::enum_kind))]
fn shows_kind_listed(known: bool, kind: &Kind, bytes: &[u8]) -> bool
    requires { length bytes.now ≡ width kind.now }
    ensures { result ≡ true → ShowsSome Little known kind.now bytes.now }
{
    match kind {
        Kind::Enum(leaf, names) => shows_enum(known, leaf, names, bytes),
        Kind::Leaf(_) | Kind::Set(_, _) | Kind::Comp(_) | Kind::Const(_) => false,
    }
}

/// Whether bytes are a value of a set: each bit that is set belongs to a choice.
#[inline(always)]
fn shows_set(quick: &Quick, kind: &Kind, bytes: &[u8]) -> bool
    requires bits { KeepsBits quick.now kind.now }
    requires order { IsKindInOrder kind.now }
    requires wide { length bytes.now ≡ width kind.now }
    ensures { result ≡ true → (known : Bool) → ShowsSome Little known kind.now bytes.now }
{
    match kind {
        Kind::Set(prim, _) => set_number(*prim, bytes) & !quick.null.cast_unsigned() == 0,
        Kind::Leaf(_) | Kind::Enum(_, _) | Kind::Comp(_) | Kind::Const(_) => false,
    }
}

/// The number of a set's bytes, in little-endian order.
#[inline(always)]
fn set_number(prim: Prim, bytes: &[u8]) -> u64
    requires encoding { is_set_primitive prim ≡ true }
    requires wide { length bytes.now ≡ prim_width prim }
    ensures { pos result ≡ number_of Little prim bytes.now }
{
    read_bits::<LittleEndian>(prim, bytes)
}

#[inline(always)]
fn read_bits<O: ByteOrder>(prim: Prim, bytes: &[u8]) -> u64
    requires encoding { is_set_primitive prim ≡ true }
    requires wide { length bytes.now ≡ prim_width prim }
    ensures { pos result ≡ read_as O.number_of prim bytes.now }
{
    match prim {
        Prim::U8 => bytes[0] as u64,
        Prim::U16 => O::read_u16(bytes) as u64,
        Prim::U32 => O::read_u32(bytes) as u64,
        Prim::U64 => O::read_u64(bytes),
        Prim::I8 | Prim::I16 | Prim::I32 | Prim::I64 | Prim::Char => 0,
    }
}

/// Whether bytes are a single number, a text or an array.
fn shows_leaf(leaf: &Leaf, bytes: &[u8]) -> bool
    requires order { IsLeafInOrder leaf.now }
    requires wide { length bytes.now ≡ width (LeafKind leaf.now) }
    ensures { result ≡ true → leaf_bad Little leaf.now bytes.now ≡ None }
{
    let mut fault = LeafFault {
        cause: LeafCause::Range,
        at: 0,
        number: 0,
    };
    leaf_judge(Order::Little, leaf, bytes, &mut fault)
}

/// Whether bytes are a value of an enum: its null, a listed one, or any value if not all are known.
#[inline(always)]
fn shows_enum(known: bool, leaf: &Leaf, names: &NamedList, bytes: &[u8]) -> bool
    requires { length bytes.now ≡ prim_width leaf.now.prim }
    ensures { let n = number_of Little leaf.now.prim bytes.now in result ≡ (is_null leaf.now n || (is_listed names.now n || not known)) }
{
    let number = get_num(Order::Little, leaf.prim, bytes);
    leaf.is_null(number) || (is_listed(names.as_slice(), number) || !known)
}
