//! A content: how a row specifies bytes.
//!
//! It is a text, an array of contents, or an object:
//!
//! - `{"lines": [text, ..]}`: each text, followed by a newline.
//! - `{"hex": text}`: bytes in hex, in groups separated by spaces.
//! - `{"file": name, "replace": [[old, new], ..]}`: a file of the folder, in which each old text, which must occur
//!   exactly once, is replaced, one pair after another.
//! - `{"frame": content, "encoding": hex}`: a frame with the content as its body; little-endian SBE if no encoding is
//!   given.
//! - `{"repeat": number, "of": content}`: the content, repeated that many times.

ghost use Rattle.std.specs.Prelude.{◌≡◌, ◌++◌, OnOk, OnErr};

use crate::folder::Folder;
use crate::member::{
    Members, items, items_of, needed, needed_number, needed_text, refuse_unknown, text_of,
};
use crate::refusal::RowErr;
use sbe_base::Files;
use serde_json::Value;
use std::alloc::Global;

/// The most bytes of a content.
const CONTENT_LIMIT: usize = 67_108_864;

/// The size of a frame's head: its length and its encoding.
const HEAD_BYTES: usize = 6;

/// The encoding of a frame that states none: little-endian SBE.
const LITTLE_ENDIAN: [u8; 2] = [0xeb, 0x50];

/// How bytes are specified.
#[derive(Drop)]
pub enum Content {
    /// Bytes that are in the row itself.
    Bytes(Vec<u8>),
    /// The bytes of a file, in which texts are replaced.
    File {
        name: String,
        changes: Vec<Change>,
    },
    /// A frame of this encoding, with a content as its body.
    Frame {
        encoding: [u8; 2],
        body: Box<Content>,
    },
    /// A content, repeated that many times.
    Repeated {
        times: usize,
        of: Box<Content>,
    },
    /// One content after another.
    Joined(Vec<Content>),
}

/// A text of a file, and its replacement.
#[derive(Drop)]
pub struct Change {
    old: String,
    new: String,
}

/// The key that determines the form of a content's object.
#[derive(Clone, Copy)]
enum Form {
    Lines,
    Hex,
    File,
    Frame,
    Repeat,
}

const FORMS: [Form; 5] = [
    Form::Lines,
    Form::Hex,
    Form::File,
    Form::Frame,
    Form::Repeat,
];

impl Form {
    /// The form of a content's object.
    fn of(members: &Members) -> Result<Form, RowErr> {
        for form in FORMS {
            if members.contains_key(form.key()) {
                return Ok(form);
            }
        }
        Err(RowErr::NotOfForm("a content", "of lines, hex, file, frame or repeat"))
    }

    /// The key that each object of this form has.
    fn key(self) -> &'static str {
        match self {
            Form::Lines => "lines",
            Form::Hex => "hex",
            Form::File => "file",
            Form::Frame => "frame",
            Form::Repeat => "repeat",
        }
    }

    /// The other key that such an object may have.
    fn other_key(self) -> &'static str {
        match self {
            Form::Lines => "lines",
            Form::Hex => "hex",
            Form::File => "replace",
            Form::Frame => "encoding",
            Form::Repeat => "of",
        }
    }
}

impl Content {
    /// No bytes.
    pub fn empty(alloc: Global) -> Content {
        Content::Bytes(Vec::new(alloc))
    }

    /// The content of a key, or no bytes if the key is missing.
    pub fn of_key(alloc: Global, members: &Members, key: &str) -> Result<Content, RowErr> {
        match members.get(key) {
            Some(value) => read_content(alloc, value),
            None => Ok(Content::empty(alloc)),
        }
    }

    /// Its bytes.
    pub fn bytes<F: Files + Drop>(
        &self,
        alloc: Global,
        folder: &mut Folder<F>,
    ) -> Result<Vec<u8>, RowErr> {
        let mut out = Vec::new(alloc);
        put_content(alloc, self, folder, &mut out)?;
        Ok(out)
    }
}

/// Reads a content.
#[cycle(read)]
pub fn read_content(alloc: Global, value: &Value) -> Result<Content, RowErr> {
    match value {
        Value::String(text) => Ok(Content::Bytes(Vec::from_slice(alloc, text.as_bytes())?)),
        Value::Array(items) => read_joined(alloc, items),
        Value::Object(members) => read_object(alloc, members),
        _ => Err(RowErr::NotOfForm("a content", "a text, an array or an object")),
    }
}

/// Reads contents that follow each other.
#[cycle(read)]
fn read_joined(alloc: Global, items: &Vec<Value>) -> Result<Content, RowErr> {
    let mut parts = Vec::new(alloc);
    for item in items {
        parts.push(read_content(alloc, item)?)?;
    }
    Ok(Content::Joined(parts))
}

/// Reads the object of a content.
#[cycle(read)]
fn read_object(alloc: Global, members: &Members) -> Result<Content, RowErr> {
    let form = Form::of(members)?;
    refuse_unknown(members, &[form.key(), form.other_key()])?;
    match form {
        Form::Lines => Ok(Content::Bytes(read_lines(alloc, members)?)),
        Form::Hex => Ok(Content::Bytes(hex_bytes(alloc, needed_text(members, "hex")?)?)),
        Form::File => read_file(alloc, members),
        Form::Frame => Ok(Content::Frame {
            encoding: read_encoding(alloc, members)?,
            body: Box::new(alloc, read_inner(alloc, members, "frame")?)?,
        }),
        Form::Repeat => Ok(Content::Repeated {
            times: needed_number(members, "repeat")?,
            of: Box::new(alloc, read_inner(alloc, members, "of")?)?,
        }),
    }
}

/// Reads the content of a required key.
#[cycle(read)]
fn read_inner(alloc: Global, members: &Members, name: &'static str) -> Result<Content, RowErr> {
    for (key, value) in members.iter() {
        if key.as_str() == name {
            return read_content(alloc, value);
        }
    }
    Err(RowErr::Missing(name))
}

/// The bytes of the texts of an array, with a newline after each.
fn read_lines(alloc: Global, members: &Members) -> Result<Vec<u8>, RowErr> {
    let mut bytes = Vec::new(alloc);
    for item in items(members, "lines")? {
        bytes.extend_from_slice(text_of(item, "lines")?.as_bytes())?;
        bytes.push(b'\n')?;
    }
    Ok(bytes)
}

/// The bytes of groups of hex digits, separated by spaces.
fn hex_bytes(alloc: Global, text: &str) -> Result<Vec<u8>, RowErr> {
    let mut bytes = Vec::new(alloc);
    for group in text.split_whitespace() {
        match hex::decode(alloc, group) {
            Ok(part) => bytes.extend_from_slice(part.as_slice())?,
            Err(_) => return Err(RowErr::NotHex(String::from_str(alloc, text)?)),
        }
    }
    Ok(bytes)
}

/// The encoding that a frame's object states.
fn read_encoding(alloc: Global, members: &Members) -> Result<[u8; 2], RowErr> {
    let Some(value) = members.get("encoding") else {
        return Ok(LITTLE_ENDIAN);
    };
    let bytes = hex_bytes(alloc, text_of(value, "encoding")?)?;
    match bytes.as_slice() {
        [first, second] => Ok([*first, *second]),
        _ => Err(RowErr::NotOfForm("encoding", "two bytes in hex")),
    }
}

/// Reads the name of a file, and the texts that are replaced in it.
fn read_file(alloc: Global, members: &Members) -> Result<Content, RowErr> {
    let name = String::from_str(alloc, needed_text(members, "file")?)?;
    let mut changes = Vec::new(alloc);
    for pair in items(members, "replace")? {
        changes.push(read_change(alloc, pair)?)?;
    }
    Ok(Content::File { name, changes })
}

/// Reads a pair of texts.
fn read_change(alloc: Global, pair: &Value) -> Result<Change, RowErr> {
    match items_of(pair, "replace")? {
        [old, new] => Ok(Change {
            old: String::from_str(alloc, text_of(old, "replace")?)?,
            new: String::from_str(alloc, text_of(new, "replace")?)?,
        }),
        _ => Err(RowErr::NotOfForm("replace", "an array of pairs of texts")),
    }
}

/// Appends the bytes of a content.
#[cycle(put)]
fn put_content<F: Files + Drop>(
    alloc: Global,
    content: &Content,
    folder: &mut Folder<F>,
    out: &mut Vec<u8>,
) -> Result<(), RowErr> {
    match content {
        Content::Bytes(bytes) => put_bytes(bytes.as_slice(), out),
        Content::File { name, changes } => {
            put_file(alloc, folder, name.as_str(), changes.as_slice(), out)
        }
        Content::Frame { encoding, body } => {
            let mut inner = Vec::new(alloc);
            put_content(alloc, &**body, folder, &mut inner)?;
            put_frame(encoding, inner.as_slice(), out)
        }
        Content::Repeated { times, of } => {
            let mut inner = Vec::new(alloc);
            put_content(alloc, &**of, folder, &mut inner)?;
            put_repeated(*times, inner.as_slice(), out)
        }
        Content::Joined(parts) => put_joined(alloc, parts, folder, out),
    }
}

/// Appends the bytes of contents that follow each other.
#[cycle(put)]
fn put_joined<F: Files + Drop>(
    alloc: Global,
    parts: &Vec<Content>,
    folder: &mut Folder<F>,
    out: &mut Vec<u8>,
) -> Result<(), RowErr> {
    for part in parts {
        put_content(alloc, part, folder, out)?;
    }
    Ok(())
}

/// Appends bytes, unless that would be too many.
fn put_bytes(bytes: &[u8], out: &mut Vec<u8>) -> Result<(), RowErr>
    ensures ok { OnOk result (out.new.items ≡ out.old.items ++ bytes.now) }
    ensures err { OnErr result (out.new.items ≡ out.old.items) }
{
    if out.len().saturating_add(bytes.len()) > CONTENT_LIMIT {
        return Err(RowErr::TooLong);
    }
    Ok(out.extend_from_slice(bytes)?)
}

/// Appends a frame: its length, its encoding and its body.
fn put_frame(encoding: &[u8; 2], body: &[u8], out: &mut Vec<u8>) -> Result<(), RowErr> {
    let Ok(length) = u32::try_from(body.len().saturating_add(HEAD_BYTES)) else {
        return Err(RowErr::TooLong);
    };
    put_bytes(&length.to_be_bytes(), out)?;
    put_bytes(encoding, out)?;
    put_bytes(body, out)
}

/// Appends bytes, repeated `times` times.
fn put_repeated(times: usize, bytes: &[u8], out: &mut Vec<u8>) -> Result<(), RowErr> {
    match times.checked_mul(bytes.len()) {
        Some(length) if length <= CONTENT_LIMIT => {}
        _ => return Err(RowErr::TooLong),
    }
    for _ in 0..times {
        put_bytes(bytes, out)?;
    }
    Ok(())
}

/// Appends the bytes of a file, in which texts are replaced.
fn put_file<F: Files + Drop>(
    alloc: Global,
    folder: &mut Folder<F>,
    name: &str,
    changes: &[Change],
    out: &mut Vec<u8>,
) -> Result<(), RowErr> {
    let bytes = folder.bytes(name)?;
    if changes.is_empty() {
        return put_bytes(bytes, out);
    }
    let Ok(text) = str::from_utf8(bytes) else {
        return Err(RowErr::NotText(String::from_str(alloc, name)?));
    };
    let mut text = String::from_str(alloc, text)?;
    for change in changes {
        text = changed(alloc, text.as_str(), change)?;
    }
    put_bytes(text.as_bytes(), out)
}

/// The text with one part replaced, which must occur exactly once.
fn changed(alloc: Global, text: &str, change: &Change) -> Result<String, RowErr> {
    let old = change.old.as_str();
    match text.split_once(old) {
        Some((front, back)) if !back.contains(old) => {
            let mut whole = String::from_str(alloc, front)?;
            whole.push_str(change.new.as_str())?;
            whole.push_str(back)?;
            Ok(whole)
        }
        _ => Err(RowErr::NotOnce(change.old.clone()?, text.matches(old).count())),
    }
}
