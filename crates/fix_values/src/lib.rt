//! The texts of single values in tag-value messages: how an integer, a decimal, a character, a code, a Boolean or a
//! text is written, and how it is read back. Nothing is rounded: what doesn't fit exactly is refused. No call
//! allocates.
#![tactic(auto)]

mod apart;
mod code;
mod decimal;
mod digits;
pub mod laws;
mod number;
mod rule;
mod short;
mod text;

pub use decimal::{fit_decimal, read_decimal, show_decimal};
pub use number::{read_num, show_num};
pub use rule::{Code, CodeList, Dec, NumRule, V};
pub use short::{ROOM, Short};
pub use text::{read_text, show_text};
