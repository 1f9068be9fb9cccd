use sbe_base::{LoadErr, NoMem};
use std::alloc::AllocError;
use thiserror::Error;

/// Why a row can't be read, or its contents can't be made.
#[derive(Debug, Drop, Error)]
pub enum RowErr {
    /// The line isn't a JSON text.
    #[error("no JSON: {0}")]
    NotJson(serde_json::Error),
    /// A key that is unknown there.
    #[error("unknown key {0:?}")]
    UnknownKey(String),
    /// A required key is missing.
    #[error("{0:?} is missing")]
    Missing(&'static str),
    /// A value has another form: its key, and the form it must have.
    #[error("{0} must be {1}")]
    NotOfForm(&'static str, &'static str),
    /// Hex that doesn't consist of whole bytes.
    #[error("no bytes in hex: {0:?}")]
    NotHex(String),
    /// A file that wasn't loaded.
    #[error("{0:?}: {1}")]
    BadFile(String, LoadErr),
    /// A file with replaced texts that isn't a text.
    #[error("{0:?} is no UTF-8 text")]
    NotText(String),
    /// A replaced text that doesn't occur exactly once.
    #[error("{0:?} is in the file {1} times")]
    NotOnce(String, usize),
    /// A content that is too long.
    #[error("the content is too long")]
    TooLong,
    /// Two rows with the same name.
    #[error("the name {0:?} is there twice")]
    NameTwice(String),
    /// Out of memory.
    #[error("out of memory")]
    Memory(#[from(alloc)] AllocError),
}

impl From<NoMem> for RowErr {
    fn from(_e: NoMem) -> RowErr {
        RowErr::Memory(AllocError)
    }
}
