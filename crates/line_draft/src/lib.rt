//! Drafts the body of the message that a printed line seems to hold. No contract says that the line holds that message,
//! or that the draft is a body: a caller has to read it, print its message again and compare.
#![tactic(auto)]

mod arrays;
mod bits;
mod blocks;
mod cursor;
mod draft;
mod kinds;
mod messages;
mod names;
mod numbers;
mod octets;
mod parts;
mod tail;
mod texts;

pub use bits::bits_of;
pub use blocks::put_dim;
pub use draft::BodyDraft;
pub use kinds::{begin_of, end_of, past};
pub use messages::{draft_body, put_header};
