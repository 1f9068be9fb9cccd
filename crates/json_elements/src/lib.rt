//! Files of elements in JSON: an element is an object with one key, its name, whose value holds attributes, and child
//! elements in `content`. A refusal states the place of what is refused.
#![tactic(auto)]

mod attribute;
mod element;
mod file;
mod form;
mod known_children;
pub mod laws;
mod refusal;

pub use attribute::{needed, optional, with_default};
pub use element::{content_of, limit_children, lone_of, refuse_children};
pub use file::{FILE_LIMIT, read_value};
pub use form::{Form, IdNumber, JsonText, TextOrNumber, WholeNumber, read_limited, str_of};
pub use known_children::{Child, NoChild, read_children};
pub use refusal::{Cause, ElementErr, Step, at_child, inside, path_of, refuse};
