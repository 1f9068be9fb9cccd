//! Messages as lines of JSON.
#![tactic(auto)]

mod block;
mod kept;
mod laws;
mod line;
mod texts;
mod worked;

pub use laws::{checked_names_need_no_escapes, printed_text_is_the_line};
pub use line::{line_of, put_line, put_open_line};
pub use texts::{LevelTexts, LineLayout};
pub use worked::{
    absent_parts_are_left_out, names_are_shown, nested_groups_are_shown, ping_is_shown,
    texts_are_shown, wide_numbers_are_shown,
};
