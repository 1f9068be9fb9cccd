ghost use Rattle.std.specs.Prelude.{◌≡◌, ◌||◌, length};
ghost use Rattle.std.specs.Result.{result_err};
ghost use Rattle.sbe_types.specs.declared.kind.Kind.{Leaf as LeafKind};
ghost use Rattle.sbe_types.specs.declared.kind.LeafShape.TheVariants.{Number};
ghost use Rattle.sbe_types.specs.LeafBad.{elements_bad, leaf_bad, text_bad, fault_unless, unshown};
ghost use Rattle.sbe_types.specs.Numbers.{number_of, prim_width};
ghost use Rattle.sbe_types.specs.Places.{width};
ghost use Rattle.sbe_types.specs.Shown.{admits, is_null, shown_element, shown_number};
ghost use Rattle.sbe_types.specs.Shows.{is_ranged};
ghost use Rattle.std.specs.Prelude.{◌*◌, true};

use crate::{Leaf, LeafShape, Order, Presence, get_num};

/// Why bytes aren't a value of a leaf.
#[derive(Clone, Copy, Debug, PartialEq, Eq)]
pub enum LeafCause {
    /// A number is neither in the range nor the null.
    Range,
    /// The text contains a byte that isn't allowed.
    TextByte,
}

/// The first element or byte of a leaf that is at fault.
#[derive(Clone, Copy, Debug, PartialEq, Eq)]
pub struct LeafFault {
    pub cause: LeafCause,
    /// The element's number, counted from 0, or the byte's offset in the leaf.
    pub at: usize,
    /// The number that the element holds, or the byte.
    pub number: i128,
}

impl Leaf {
    /// Whether the number is within the range.
    pub fn admits(&self, number: i128) -> bool
        ensures { result ≡ admits self.now number }
    {
        self.low <= number && number <= self.high
    }

    /// Whether the number is the null of an optional leaf. Octets have no null.
    pub fn is_null(&self, number: i128) -> bool
        ensures { result ≡ is_null self.now number }
    {
        match (self.presence, self.shape) {
            (_, LeafShape::Octets) => false,
            (Presence::Optional, _) => number == self.null,
            _ => false,
        }
    }
}

/// Checks that the bytes of a leaf are a value (SBE 1.0, "Field encoding"). Otherwise returns the first element or byte
/// at fault. `bytes` must have the width of the leaf.
pub fn leaf_reads(order: Order, leaf: &Leaf, bytes: &[u8]) -> Result<(), LeafFault>
    requires wide { length bytes.now ≡ width (LeafKind leaf.now) }
    requires single { leaf.now.shape ≡ Number → leaf.now.length ≡ 1 }
    ensures { result_err result ≡ leaf_bad order leaf.now bytes.now }
{
    let mut fault = LeafFault {
        cause: LeafCause::Range,
        at: 0,
        number: 0,
    };
    if leaf_judge(order, leaf, bytes, &mut fault) {
        Ok(())
    } else {
        Err(fault)
    }
}

/// Like [`leaf_reads`], with the fault written to `out` if it returns false.
#[tactic(auto, using(crate::proofs::BadLemmas::encoded_good))]
pub fn leaf_judge(order: Order, leaf: &Leaf, bytes: &[u8], out: &mut LeafFault) -> bool
    requires wide { length bytes.now ≡ width (LeafKind leaf.now) }
    requires single { leaf.now.shape ≡ Number → leaf.now.length ≡ 1 }
    ensures { fault_unless result out.new ≡ leaf_bad order leaf.now bytes.now }
{
    match leaf.shape {
        LeafShape::Number => judge_number(order, leaf, bytes, out),
        LeafShape::RangedText => judge_text(leaf, bytes, out),
        LeafShape::EncodedText => true,
        LeafShape::Octets | LeafShape::Numbers => judge_elements(order, leaf, bytes, out),
    }
}

/// Checks a single number.
fn judge_number(order: Order, leaf: &Leaf, bytes: &[u8], out: &mut LeafFault) -> bool
    requires { length bytes.now ≡ prim_width leaf.now.prim }
    ensures { let number = number_of order leaf.now.prim bytes.now in fault_unless result out.new ≡ unshown 0 number (shown_number leaf.now number) }
{
    let number = get_num(order, leaf.prim, bytes);
    if leaf.is_null(number) || leaf.admits(number) {
        return true;
    }
    *out = LeafFault {
        cause: LeafCause::Range,
        at: 0,
        number,
    };
    false
}

/// Checks a text: its bytes are within the range, up to the first 00.
#[tactic(auto, using(crate::proofs::BadLemmas::text_start))]
fn judge_text(leaf: &Leaf, bytes: &[u8], out: &mut LeafFault) -> bool
    requires { is_ranged leaf.now.shape ≡ true }
    ensures { fault_unless result out.new ≡ text_bad leaf.now bytes.now }
{
    for (at, byte) in bytes.iter().enumerate() {
        if *byte == 0 {
            return true;
        }
        let number = *byte as i128;
        if !leaf.admits(number) {
            *out = LeafFault {
                cause: LeafCause::TextByte,
                at,
                number,
            };
            return false;
        }
    }
    true
}

/// Checks an array, element by element.
#[tactic(auto, using(crate::proofs::BadLemmas::room, crate::proofs::BadLemmas::left, crate::proofs::BadLemmas::elements_more, crate::proofs::BadLemmas::elements_end))]
fn judge_elements(order: Order, leaf: &Leaf, bytes: &[u8], out: &mut LeafFault) -> bool
    requires { length bytes.now ≡ prim_width leaf.now.prim * leaf.now.length }
    ensures { fault_unless result out.new ≡ elements_bad order leaf.now 0 leaf.now.length bytes.now }
{
    let wide = leaf.prim.width();
    let mut rest = bytes;
    for at in 0..leaf.length as usize {
        if !judge_element(order, leaf, at, &rest[..wide], out) {
            return false;
        }
        rest = &rest[wide..];
    }
    true
}

/// Checks element `at` of an array.
fn judge_element(order: Order, leaf: &Leaf, at: usize, bytes: &[u8], out: &mut LeafFault) -> bool
    requires { length bytes.now ≡ prim_width leaf.now.prim }
    ensures { let number = number_of order leaf.now.prim bytes.now in fault_unless result out.new ≡ unshown at number (shown_element leaf.now number) }
{
    let number = get_num(order, leaf.prim, bytes);
    if leaf.is_null(number) || leaf.admits(number) {
        return true;
    }
    *out = LeafFault {
        cause: LeafCause::Range,
        at,
        number,
    };
    false
}
