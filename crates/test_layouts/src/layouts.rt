//! The layout of a schema file that was read and checked.

mod files;

use crate::outline::add_layout;
use files::{ORDER, Row};
use layout_compile::compile;
use layout_tables::Layout;
use sbe_schema::read_schema;
use schema_check::{Checked, check};
use std::alloc::{AllocError, Global};
use std::process::Abort;
use std::test::Fail;

fn checked_of(alloc: Global, text: &str) -> Result<Checked, Fail> {
    let schema = read_schema(alloc, text.as_bytes())?;
    Ok(check(alloc, schema)?)
}

fn layout_of(alloc: Global, text: &str) -> Result<Layout, Fail> {
    let checked = checked_of(alloc, text)?;
    Ok(compile(alloc, &checked)?)
}

fn layout_in(alloc: Global, row: &Row) -> Result<Layout, Fail> {
    layout_of(alloc, row.file)
}

fn outline_of(alloc: Global, layout: &Layout) -> Result<String, AllocError> {
    let mut found = String::new(alloc);
    add_layout(alloc, &mut found, layout)?;
    Ok(found)
}

fn expect_outline(
    rt: &impl Abort,
    alloc: Global,
    layout: &Layout,
    wanted: &str,
) -> Result<(), Fail> {
    let found = outline_of(alloc, layout)?;
    assert_eq!(rt; found.as_str(), wanted);
    Ok(())
}

fn expect_row(rt: &impl Abort, alloc: Global, row: &Row) -> Result<(), Fail> {
    expect_outline(rt, alloc, &layout_in(alloc, row)?, row.outline)
}

#[test]
fn an_outline_has_the_place_of_each_part(rt: HostRuntime) -> Result<(), Fail> {
    expect_row(&rt, rt.alloc(), &ORDER)
}
