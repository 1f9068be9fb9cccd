//! The library for C: a schema is opened as a handle, and bodies are read with it. `sbe.h` declares the exports.
#![tactic(auto)]

mod answers;
mod building;
mod dumping;
mod exports;
mod fields;
mod filling;
mod handle;
mod names;
mod opened;
mod opening;
mod parts;
mod reading;
mod text_sink;
mod validating;
mod ways;
