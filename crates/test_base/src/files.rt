//! Files in memory and in the file system.

use crate::fakes::numbers_of;
use anyhow::{Result, bail};
use sbe_base::{DirFiles, Files, MemFiles};
use std::alloc::Global;
use std::{env, fs};
use test_tables::{Row, spelled};

/// Loads like a caller that knows only the trait: a name and a limit, into a buffer that isn't empty.
fn load_answer<F: Files>(alloc: Global, files: &mut F, name: &str, limit: usize) -> Result<String> {
    let mut into = Vec::from_slice(alloc, b"before")?;
    let answer = files.load(alloc, name, limit, &mut into);
    let held = spelled(alloc, into.as_slice())?;
    match answer {
        Ok(()) => Ok(format!(in alloc; "{}; ", held.as_str())?),
        Err(e) => Ok(format!(in alloc; "{e:?} {}; ", held.as_str())?),
    }
}

fn cut(text: &str) -> Result<(&str, &str)> {
    match text.split_once(' ') {
        Some(two) => Ok(two),
        None => bail!("a blank is missing: {text}"),
    }
}

/// Puts a file, or loads one.
fn mem_step(alloc: Global, files: &mut MemFiles, word: &str, loads: bool) -> Result<String> {
    let (name, rest) = cut(word)?;
    if loads {
        return load_answer(alloc, files, name, rest.parse::<usize>()?);
    }
    files.put(name, rest.as_bytes())?;
    Ok(String::new(alloc))
}

fn mem_steps(alloc: Global, files: &mut MemFiles, row: &Row) -> Result<String> {
    let mut text = String::new(alloc);
    let mut loads = false;
    for i in 1..row.len() {
        let word = row.text(i)?;
        if word == "load" {
            loads = true;
        } else {
            text.push_str(mem_step(alloc, files, word, loads)?.as_str())?;
        }
    }
    Ok(text)
}

/// A row: the loads that fail, files with a space between name and bytes, `load`, and loads by name and limit.
pub fn mem_answer(alloc: Global, row: &Row) -> Result<String> {
    let failing = numbers_of(alloc, row.text(0)?)?;
    let mut files = MemFiles::new(alloc, failing.as_slice())?;
    mem_steps(alloc, &mut files, row)
}

/// The path of a name: a folder for an empty one, otherwise a file in it.
fn place_of(rt: &HostRuntime, name: &str) -> Result<String> {
    let dir = env::temp_dir(rt)?;
    let dir = dir.as_path().to_string_lossy();
    if name == "folder" {
        return Ok(String::from_str(rt.alloc(), dir)?);
    }
    Ok(format!(in rt.alloc(); "{dir}/sbe_test_base_{name}")?)
}

fn dir_load(rt: &HostRuntime, files: &mut DirFiles<HostRuntime>, word: &str) -> Result<String> {
    let (name, limit) = cut(word)?;
    let limit = limit.parse::<usize>()?;
    let place = place_of(rt, name)?;
    load_answer(rt.alloc(), files, place.as_str(), limit)
}

fn dir_loads(rt: &HostRuntime, row: &Row) -> Result<String> {
    let mut files = DirFiles::new(*rt);
    let mut text = String::new(rt.alloc());
    for i in 1..row.len() {
        text.push_str(dir_load(rt, &mut files, row.text(i)?)?.as_str())?;
    }
    Ok(text)
}

/// A row: the bytes of the file `here`, and loads by name and limit.
pub fn dir_answer(rt: &HostRuntime, row: &Row) -> Result<String> {
    let here = place_of(rt, "here")?;
    fs::write(rt, here.as_str(), row.text(0)?)?;
    let text = dir_loads(rt, row)?;
    fs::remove_file(rt, here.as_str())?;
    Ok(text)
}
