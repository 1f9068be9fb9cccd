//! Values, texts and numbers as JSON, printed to a sink.
#![tactic(auto)]

mod laws;
mod runs;
mod sets;
mod texts;
mod values;

pub use laws::names_need_no_escapes;
pub use runs::plain_front;
pub use sets::put_set;
pub use texts::{HEX_END, HEX_FRONT, hex_digit, put_key, put_plain_front, put_string, put_text};
pub use values::{
    name_of, put_char, put_comma, put_constant, put_count, put_enum, put_null, put_number,
    put_single, put_small_number,
};
