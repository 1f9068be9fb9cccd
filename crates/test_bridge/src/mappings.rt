//! What a mapping file is read as, its data tags, and the tags of its header.

use anyhow::{Result, bail};
use orchestra_map::{MCode, MapErr, data_tags, header_tags, read_map};
use std::alloc::Global;
use tagvalue_codec::{DataTags, Role};
use test_tables::Row;

/// `read`, or the code and the path of the refusal.
pub fn read_answer(alloc: Global, bytes: &[u8]) -> Result<String> {
    match read_map(alloc, bytes) {
        Ok(_) => Ok(String::from_str(alloc, "read")?),
        Err(MapErr::Refused(code, path)) => {
            let path = String::from_utf8_lossy(alloc, path.as_slice())?;
            Ok(format!(in alloc; "{} {}", code_answer(code), path.as_str())?)
        }
        Err(MapErr::Memory) => bail!("out of memory"),
    }
}

fn code_answer(code: MCode) -> &'static str {
    match code {
        MCode::Xml => "M01",
        MCode::NotJson => "M02",
        MCode::Shape => "M03",
        MCode::BadAttribute => "M04",
        MCode::UnknownReference => "M05",
        MCode::Duplicate => "M06",
        MCode::Cycle => "M07",
        MCode::AmbiguousTag => "M08",
        MCode::Datatype => "M09",
        MCode::Limit => "M10",
    }
}

/// A row: a mapping and tags. Answers the role of each in the data fields of the mapping.
pub fn data_answer(alloc: Global, row: &Row) -> Result<String> {
    let bytes = row.bytes(alloc, 0)?;
    let Ok(repository) = read_map(alloc, bytes.as_slice()) else {
        bail!("the mapping isn't read");
    };
    let tags = data_tags(alloc, &repository)?;
    let mut out = String::new(alloc);
    for i in 1..row.len() {
        out.push_str(role_answer(alloc, &tags, row.text(i)?)?.as_str())?;
    }
    Ok(out)
}

fn role_answer(alloc: Global, tags: &DataTags, tag: &str) -> Result<String> {
    match tags.role(tag.parse::<u32>()?) {
        Role::Plain => Ok(format!(in alloc; "{tag} plain; ")?),
        Role::Length(of) => Ok(format!(in alloc; "{tag} length of {of}; ")?),
        Role::Data => Ok(format!(in alloc; "{tag} data; ")?),
    }
}

/// A row: a mapping and tags. Answers which of them belong to the header.
pub fn header_answer(alloc: Global, row: &Row) -> Result<String> {
    let bytes = row.bytes(alloc, 0)?;
    let Ok(repository) = read_map(alloc, bytes.as_slice()) else {
        bail!("the mapping isn't read");
    };
    let tags = header_tags(alloc, &repository)?;
    let mut out = String::new(alloc);
    for i in 1..row.len() {
        if tags.has(row.text(i)?.parse::<u32>()?) {
            out.push_str(row.text(i)?)?;
            out.push_str(" ")?;
        }
    }
    Ok(out)
}
