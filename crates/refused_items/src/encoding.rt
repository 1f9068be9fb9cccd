ghost use Rattle.std.specs.Prelude.{◌≡◌};
ghost use Rattle.printers.specs.Prints.{Prints};
ghost use Rattle.refused_items.specs.Refused.{of_encoding, refused_line, type_text};

use crate::refused::{put_refused_back, put_refused_front};
use json_values::hex_digit;
use printers::Printer;
use sbe_base::Sink;

/// Prints the line of an item whose frame has another encoding type.
#[inline(never)]
pub fn put_encoding<O: Sink>(printer: &mut Printer<'_, O>, item: u64, encoding: u16)
    ensures { Prints O.state printer.old printer.new (refused_line item (of_encoding encoding)) }
{
    put_refused_front(printer, item, "E01", None);
    printer.put(b"\"");
    put_refused_back(printer, &digits_of(encoding));
}

/// The four digits of an encoding type.
fn digits_of(encoding: u16) -> [u8; 4]
    ensures { result ≡ type_text encoding }
{
    let high = (encoding / 256) as u8;
    let low = (encoding % 256) as u8;
    [
        hex_digit(high / 16),
        hex_digit(high % 16),
        hex_digit(low / 16),
        hex_digit(low % 16),
    ]
}
