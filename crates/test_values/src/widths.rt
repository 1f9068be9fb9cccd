//! Numbers and values in bytes.

ghost use Rattle.std.specs.Prelude.{◌≡◌, true};
ghost use Rattle.sbe_types.specs.Places.{width};
ghost use Rattle.schema_facts.specs.InOrder.{IsKindFrom};
ghost use Rattle.schema_rules.specs.Ranges.{is_number_of};
ghost use Rattle.field_bytes.specs.Faults.{is_single};

use crate::leaves::{leaf_of, names_of, prim_of};
use anyhow::{Result, bail};
use field_bytes::{FieldCause, ValueFault, leaf_writes, put_num, value_judge};
use sbe_types::{
    Kind, Leaf, LeafFault, LeafShape, Order, Presence, Prim, Value, get_num, leaf_reads,
};
use std::alloc::Global;
use test_tables::{Row, spelled, value_of};

/// The answer to a row, or `None` if it names another call.
pub fn answer(alloc: Global, row: &Row) -> Result<Option<String>> {
    let text = match row.call() {
        "get_num" => num_got(alloc, row)?,
        "put_num" => num_put(alloc, row)?,
        "leaf_reads" => leaf_read(alloc, row)?,
        "value_judge" => kind_judged(alloc, row)?,
        "leaf_writes" => leaf_written(alloc, row)?,
        _ => return Ok(None),
    };
    Ok(Some(text))
}

fn order_of(row: &Row) -> Result<Order> {
    match row.text(0)? {
        "little" => Ok(Order::Little),
        "big" => Ok(Order::Big),
        _ => bail!("no order"),
    }
}

/// A byte order, a primitive, and its bytes.
fn num_got(alloc: Global, row: &Row) -> Result<String> {
    let order = order_of(row)?;
    let prim = prim_of(row.text(1)?)?;
    let bytes = row.bytes(alloc, 2)?;
    if bytes.len() != prim.width() {
        bail!("the primitive has another width");
    }
    let n = get_num(order, prim, bytes.as_slice());
    Ok(format!(in alloc; "{n}")?)
}

/// Whether the primitive has the number.
fn has_number(prim: Prim, n: i128) -> bool
    ensures { result ≡ is_number_of prim n }
{
    match prim {
        Prim::Char | Prim::U8 => 0 <= n && n <= 255,
        Prim::I8 => -128 <= n && n <= 127,
        Prim::U16 => 0 <= n && n <= 65535,
        Prim::I16 => -32768 <= n && n <= 32767,
        Prim::U32 => 0 <= n && n <= 4294967295,
        Prim::I32 => -2147483648 <= n && n <= 2147483647,
        Prim::U64 => 0 <= n && n <= 18446744073709551615,
        Prim::I64 => -9223372036854775808 <= n && n <= 9223372036854775807,
    }
}

/// A byte order, a primitive, and a number, whose bytes are written in front of others.
fn num_put(alloc: Global, row: &Row) -> Result<String> {
    let order = order_of(row)?;
    let prim = prim_of(row.text(1)?)?;
    let n = row.number(2)?;
    if !has_number(prim, n) {
        bail!("the primitive has no such number");
    }
    let mut bytes = [170; 8];
    let wide = prim.width();
    put_num(order, prim, n, &mut bytes[..wide]);
    if bytes[wide..].iter().any(|byte| *byte != 170) {
        bail!("other bytes were written");
    }
    spelled(alloc, &bytes[..wide])
}

fn leaf_fault_text(alloc: Global, fault: LeafFault) -> Result<String> {
    let at = fault.at;
    let number = fault.number;
    Ok(format!(in alloc; "{:?} at {at}: {number}", fault.cause)?)
}

/// A byte order, a leaf, and its bytes.
fn leaf_read(alloc: Global, row: &Row) -> Result<String> {
    let order = order_of(row)?;
    let leaf = leaf_of(alloc, row.text(1)?)?;
    let bytes = row.bytes(alloc, 2)?;
    if leaf.shape == LeafShape::Number && leaf.length != 1 {
        bail!("a number has the length 1");
    }
    if leaf.prim.width().checked_mul(leaf.length as usize) != Some(bytes.len()) {
        bail!("the leaf has another width");
    }
    match leaf_reads(order, &leaf, bytes.as_slice()) {
        Ok(()) => Ok(format!(in alloc; "a value")?),
        Err(fault) => leaf_fault_text(alloc, fault),
    }
}

fn fault_text(alloc: Global, fault: &ValueFault) -> Result<String> {
    let detail = fault.detail;
    match fault.elem {
        Some(i) => Ok(format!(in alloc; "{:?} {detail} at {i}", fault.cause)?),
        None => Ok(format!(in alloc; "{:?} {detail}", fault.cause)?),
    }
}

fn value_fits(alloc: Global, kind: &Kind, v: &Value) -> Result<String>
    requires { is_single kind.now ≡ true }
{
    let mut fault = ValueFault {
        cause: FieldCause::Kind,
        elem: None,
        detail: 0,
    };
    if value_judge(kind, v, &mut fault) {
        return Ok(format!(in alloc; "fits")?);
    }
    fault_text(alloc, &fault)
}

/// A kind and a value. The kind is that of a leaf, of an enum with a leaf, or of a set with a primitive.
fn kind_judged(alloc: Global, row: &Row) -> Result<String> {
    let value = value_of(alloc, row.text(2)?)?;
    value_judged(alloc, row, &value)
}

/// The same, given the value.
fn value_judged(alloc: Global, row: &Row, v: &Value) -> Result<String> {
    match row.text(0)? {
        "leaf" => leaf_judged(alloc, row, v),
        "enum" => enum_judged(alloc, row, v),
        "set" => set_judged(alloc, row, v),
        _ => bail!("no kind"),
    }
}

fn leaf_judged(alloc: Global, row: &Row, v: &Value) -> Result<String> {
    let leaf = leaf_of(alloc, row.text(1)?)?;
    value_fits(alloc, &Kind::Leaf(leaf), v)
}

fn enum_judged(alloc: Global, row: &Row, v: &Value) -> Result<String> {
    let leaf = leaf_of(alloc, row.text(1)?)?;
    let names = names_of(alloc, row.text(3)?)?;
    value_fits(alloc, &Kind::Enum(leaf, names), v)
}

fn set_judged(alloc: Global, row: &Row, v: &Value) -> Result<String> {
    let names = names_of(alloc, row.text(3)?)?;
    let prim = prim_of(row.text(1)?)?;
    value_fits(alloc, &Kind::Set(prim, names), v)
}

/// A text of four bytes, which may be null.
fn text_kind() -> Kind
    ensures single { is_single result ≡ true }
    ensures ready { IsKindFrom 1 result }
    ensures wide { width result ≡ 4 }
{
    Kind::Leaf(Leaf {
        prim: Prim::Char,
        length: 4,
        shape: LeafShape::RangedText,
        presence: Presence::Optional,
        null: 0,
        low: 32,
        high: 126,
    })
}

/// Two numbers of two bytes, each of which may be null.
fn pair_kind() -> Kind
    ensures single { is_single result ≡ true }
    ensures ready { IsKindFrom 1 result }
    ensures wide { width result ≡ 4 }
{
    Kind::Leaf(Leaf {
        prim: Prim::U16,
        length: 2,
        shape: LeafShape::Numbers,
        presence: Presence::Optional,
        null: 65535,
        low: 0,
        high: 1000,
    })
}

/// A byte order, one of two kinds, and a value, whose bytes are written over others: the answer, and the bytes
/// afterwards.
fn leaf_written(alloc: Global, row: &Row) -> Result<String> {
    let order = order_of(row)?;
    let value = value_of(alloc, row.text(2)?)?;
    let mut out = [170; 4];
    let answer = if row.text(1)? == "text" {
        leaf_writes(order, &text_kind(), &value, &mut out)
    } else {
        leaf_writes(order, &pair_kind(), &value, &mut out)
    };
    let digits = hex::encode(alloc, &out)?;
    match answer {
        Ok(()) => Ok(format!(in alloc; "{}", digits.as_str())?),
        Err(fault) => {
            let why = fault_text(alloc, &fault)?;
            Ok(format!(in alloc; "{} leaves {}", why.as_str(), digits.as_str())?)
        }
    }
}
