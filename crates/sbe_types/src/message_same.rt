ghost use Rattle.std.specs.Prelude.{◌≡◌, ◌↔◌, IsTrue};

use crate::{Block, DataVal, DataValList, Elem, ElemList, GroupVal, Msg, Value};
use lists::List;

impl Elem {
    fn same(&self, other: &Elem) -> bool
        ensures { IsTrue result ↔ (self.now ≡ other.now) }
    {
        match self {
            Elem::Num(n) => match other {
                Elem::Num(m) => *n == *m,
                Elem::Null => false,
            },
            Elem::Null => match other {
                Elem::Null => true,
                Elem::Num(_) => false,
            },
        }
    }
}

fn are_same_elems(a: &ElemList, b: &ElemList) -> bool
    ensures { IsTrue result ↔ (a.now ≡ b.now) }
{
    if a.len() != b.len() {
        return false;
    }
    for i in 0..a.len() {
        if !a.at(i).same(b.at(i)) {
            return false;
        }
    }
    true
}

impl Value {
    /// Whether the two values are equal.
    #[cycle(value_same)]
    pub fn same(&self, other: &Value) -> bool
        ensures { IsTrue result ↔ (self.now ≡ other.now) }
    {
        match (self, other) {
            (Value::Num(n), Value::Num(m)) => *n == *m,
            (Value::Null, Value::Null) => true,
            (Value::Text(text), Value::Text(with)) => text.as_slice() == with.as_slice(),
            (Value::Nums(elems), Value::Nums(with)) => are_same_elems(elems, with),
            (Value::Enum(n), Value::Enum(m)) => *n == *m,
            (Value::Set(bits), Value::Set(with)) => *bits == *with,
            (Value::Comp(values), Value::Comp(with)) => are_same_values(values, with),
            (Value::Const, Value::Const) => true,
            (Value::Absent, Value::Absent) => true,
            _ => false,
        }
    }
}

#[cycle(value_same)]
fn are_same_values(a: &List<Value>, b: &List<Value>) -> bool
    ensures { IsTrue result ↔ (a.now ≡ b.now) }
{
    if a.len() != b.len() {
        return false;
    }
    for i in 0..a.len() {
        if !a.at(i).same(b.at(i)) {
            return false;
        }
    }
    true
}

impl DataVal {
    /// Whether the two data parts are equal.
    pub fn same(&self, other: &DataVal) -> bool
        ensures { IsTrue result ↔ (self.now ≡ other.now) }
    {
        match self {
            DataVal::Absent => match other {
                DataVal::Absent => true,
                DataVal::Bytes(_) => false,
            },
            DataVal::Bytes(bytes) => match other {
                DataVal::Bytes(with) => bytes.as_slice() == with.as_slice(),
                DataVal::Absent => false,
            },
        }
    }
}

fn are_same_data(a: &DataValList, b: &DataValList) -> bool
    ensures { IsTrue result ↔ (a.now ≡ b.now) }
{
    if a.len() != b.len() {
        return false;
    }
    for i in 0..a.len() {
        if !a.at(i).same(b.at(i)) {
            return false;
        }
    }
    true
}

impl Block {
    /// Whether the two blocks are equal.
    #[cycle(block_same)]
    pub fn same(&self, other: &Block) -> bool
        ensures { IsTrue result ↔ (self.now ≡ other.now) }
    {
        are_same_values(&self.fields, &other.fields)
            && are_same_groups(&self.groups, &other.groups)
            && are_same_data(&self.parts, &other.parts)
    }
}

impl GroupVal {
    /// Whether the two groups are equal.
    #[cycle(block_same)]
    pub fn same(&self, other: &GroupVal) -> bool
        ensures { IsTrue result ↔ (self.now ≡ other.now) }
    {
        match self {
            GroupVal::Absent => match other {
                GroupVal::Absent => true,
                GroupVal::Entries(_) => false,
            },
            GroupVal::Entries(entries) => match other {
                GroupVal::Entries(with) => are_same_entries(entries, with),
                GroupVal::Absent => false,
            },
        }
    }
}

#[cycle(block_same)]
fn are_same_groups(a: &List<GroupVal>, b: &List<GroupVal>) -> bool
    ensures { IsTrue result ↔ (a.now ≡ b.now) }
{
    if a.len() != b.len() {
        return false;
    }
    for i in 0..a.len() {
        if !a.at(i).same(b.at(i)) {
            return false;
        }
    }
    true
}

#[cycle(block_same)]
fn are_same_entries(a: &List<Block>, b: &List<Block>) -> bool
    ensures { IsTrue result ↔ (a.now ≡ b.now) }
{
    if a.len() != b.len() {
        return false;
    }
    for i in 0..a.len() {
        if !a.at(i).same(b.at(i)) {
            return false;
        }
    }
    true
}

impl Msg {
    /// Whether the two messages are equal.
    pub fn same(&self, other: &Msg) -> bool
        ensures { IsTrue result ↔ (self.now ≡ other.now) }
    {
        self.template == other.template
            && self.version == other.version
            && self.block.same(&other.block)
    }
}
