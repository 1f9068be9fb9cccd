//! The files of schemas: loads and checks them in the order of the arguments, and notes a refused file.
#![tactic(auto)]

mod files;
mod refusal;
mod schema_file;
mod schemas;

pub use files::{FileRefusal, FileRole, JobStop, LoadStop, RefusedFile};
pub use refusal::{put_refusal, put_role, refusal_status};
pub use schema_file::load_checked;
pub use schemas::{load_schemas, why_not_joined};
