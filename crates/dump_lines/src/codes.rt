ghost use Rattle.std.specs.Prelude.{◌≡◌};
ghost use Rattle.dump_lines.specs.Refused.{fault_code};
ghost use Rattle.dump_lines.specs.Dumped.{encoding_of};

use open_framing::{SBE_BIG, SBE_LITTLE};
use sbe_types::Order;
use sbe_wire::FCode;

/// The code of a fault, as it is printed.
pub fn fault_code(code: FCode) -> &'static str
    ensures { result.now ≡ fault_code code }
{
    match code {
        FCode::ShortHeader => "F01",
        FCode::SchemaId => "F02",
        FCode::Template => "F03",
        FCode::BlockShort => "F04",
        FCode::Truncated => "F05",
        FCode::Range => "F06",
        FCode::EnumUnknown => "F07",
        FCode::SetUnknown => "F08",
        FCode::TextByte => "F09",
        FCode::Count => "F10",
        FCode::Length => "F11",
        FCode::Trailing => "F12",
    }
}

/// The encoding type of frames whose messages have this byte order.
pub fn encoding_of(order: Order) -> u16
    ensures { result ≡ encoding_of order }
{
    match order {
        Order::Little => SBE_LITTLE,
        Order::Big => SBE_BIG,
    }
}
