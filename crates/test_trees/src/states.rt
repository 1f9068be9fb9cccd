//! Messages written through the states of a writer.

use layout_tables::Layout;
use sbe_types::{Kind, Value};
use typed_writer::{FrameBuf, NextPart, start};

/// The writer's answers in turn, and the length of the body.
#[derive(Clone, Copy, Debug, PartialEq, Eq)]
pub struct FirstWrites {
    /// The field that `done` names before any is set.
    unset: usize,
    /// Whether a value beyond the range is refused.
    is_refused: bool,
    /// The field that `done` names after that.
    unset_still: usize,
    length: usize,
}

/// Writes the first message, if it has a number as its first field, and no groups and data.
pub fn write_first(layout: &Layout, buffer: &mut FrameBuf) -> Option<FirstWrites> {
    if layout.templates() == 0 {
        return None;
    }
    let level = layout.root(0);
    if level >= layout.levels() {
        return None;
    }
    let (fields, groups, parts) = layout.counts(level);
    if fields == 0 || groups != 0 || parts != 0 {
        return None;
    }
    let Kind::Leaf(_) = layout.kind(level, 0) else {
        return None;
    };
    let Ok(mut state) = start(buffer, layout, 0) else {
        return None;
    };
    let unset = match state.buf.done(layout) {
        Ok(_) => return None,
        Err(unset) => unset,
    };
    let is_refused = match state.set(0, &Value::Num(65535)) {
        Ok(()) => false,
        Err(_) => true,
    };
    if !is_refused {
        return None;
    }
    let unset_still = match state.buf.done(layout) {
        Ok(_) => return None,
        Err(unset) => unset,
    };
    match state.set(0, &Value::Num(258)) {
        Ok(()) => {}
        Err(_) => return None,
    }
    match state.buf.done(layout) {
        Ok(tail) => Some(FirstWrites {
            unset,
            is_refused,
            unset_still,
            length: tail.finish(),
        }),
        Err(_) => None,
    }
}

/// The field that `done` names if none is set.
pub fn unset_first(layout: &Layout, buffer: &mut FrameBuf) -> Option<usize> {
    match start(buffer, layout, 0) {
        Ok(state) => match state.done() {
            Ok(_) => None,
            Err(undone) => Some(undone.unset),
        },
        Err(_) => None,
    }
}

/// The answers of the methods after the fields of a message, and its length in bytes.
#[derive(Clone, Copy, Debug, PartialEq, Eq)]
pub struct Ended {
    is_whole: bool,
    next: NextPart,
    length: usize,
}

/// Ends the first message by the methods, if it has a field, and no groups and data.
pub fn end_first(layout: &Layout, buffer: &mut FrameBuf) -> Option<Ended> {
    if layout.templates() == 0 {
        return None;
    }
    let level = layout.root(0);
    if level >= layout.levels() {
        return None;
    }
    let (fields, groups, parts) = layout.counts(level);
    if fields == 0 || groups != 0 || parts != 0 {
        return None;
    }
    let Ok(mut state) = start(buffer, layout, 0) else {
        return None;
    };
    match state.set(0, &Value::Num(258)) {
        Ok(()) => {}
        Err(_) => return None,
    }
    match state.done() {
        Ok(tail) => Some(Ended {
            is_whole: tail.whole(),
            next: tail.next(),
            length: tail.finish(),
        }),
        Err(_) => None,
    }
}

/// The answers of the methods for a message with a group, of which an entry is begun and dropped.
#[derive(Clone, Copy, Debug, PartialEq, Eq)]
pub struct Begun {
    /// What comes first after the root's block, and whether the root's writer is whole at that point.
    next: NextPart,
    is_root_whole: bool,
    /// How many entries are still to come at first.
    left: u32,
    /// Whether the group's writer is whole before the entry is begun, and after.
    is_whole: bool,
    is_whole_still: bool,
    /// The field that the entry's `done` names.
    unset: usize,
}

/// Begins an entry of the second message's group by the methods, if it has a group.
pub fn begin_entry(layout: &Layout, buffer: &mut FrameBuf) -> Option<Begun> {
    if layout.templates() < 2 {
        return None;
    }
    let level = layout.root(1);
    if level >= layout.levels() {
        return None;
    }
    let (_, groups, _) = layout.counts(level);
    if groups == 0 {
        return None;
    }
    let Ok(state) = start(buffer, layout, 1) else {
        return None;
    };
    let Ok(mut tail) = state.done() else {
        return None;
    };
    let next = tail.next();
    let is_root_whole = tail.whole();
    let Ok(mut entries) = tail.group(1) else {
        return None;
    };
    let left = entries.left();
    let is_whole = entries.whole();
    let unset = match entries.entry() {
        Ok(fields) => match fields.done() {
            Ok(_) => return None,
            Err(undone) => undone.unset,
        },
        Err(_) => return None,
    };
    Some(Begun {
        next,
        is_root_whole,
        left,
        is_whole,
        is_whole_still: entries.whole(),
        unset,
    })
}
