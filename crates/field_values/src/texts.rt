ghost use Rattle.std.specs.Prelude.{◌≡◌, Bool, Some};
ghost use Rattle.std.specs.Option.{IsSome};
ghost use Rattle.sbe_types.specs.declared.kind.Kind.{Kind};
ghost use Rattle.sbe_types.specs.declared.kind.Order.{Order};
ghost use Rattle.sbe_types.specs.declared.message.Value.{Value};
ghost use Rattle.sbe_types.specs.Shows.{Shows};
ghost use Rattle.field_values.specs.Reports.{before_zero, text_in};

use memchr::memchr;

/// The text in the bytes of a field that has one: the bytes before the first 00.
pub fn text_in(bytes: &[u8]) -> &[u8]
    ensures { (order : Order) (known : Bool) (kind : Kind) (v : Value) → Shows order known kind v bytes.now → IsSome (text_in v) → text_in v ≡ Some result.now }
{
    before_zero(bytes)
}

/// The bytes before the first 00.
pub fn before_zero(bytes: &[u8]) -> &[u8]
    ensures { result.now ≡ before_zero bytes.now }
{
    match memchr(0, bytes) {
        Some(i) => &bytes[..i],
        None => bytes,
    }
}
