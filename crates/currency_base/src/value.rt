ghost use Rattle.std.specs.Prelude.{◌≡◌, IfOk};
ghost use Rattle.currency_base.specs.Values.{kind_of, value_test, holds_at};

use crate::{Name, NoMemory};
use std::alloc::Global;
use std::cmp::Ordering;

/// What kind of values an attribute holds.
#[derive(Clone, Copy, Debug, PartialEq, Eq)]
pub enum ValueKind {
    /// Text, ordered by its bytes.
    Text,
    /// A signed number of 64 bits.
    Int,
}

/// A value of an attribute. Ints are ordered by number and texts by their bytes, and an int is below a
/// text.
#[derive(Debug, Drop, PartialEq, Eq, PartialOrd, Ord)]
pub enum Value {
    Int(i64),
    Text(Name),
}

/// How two values of one kind are compared.
#[derive(Clone, Copy, Debug, PartialEq, Eq)]
pub enum Cmp {
    Eq,
    Ne,
    Lt,
    Le,
    Gt,
    Ge,
}

impl Cmp {
    /// Does the comparison hold of two values that stand in this order?
    fn holds_at(self, order: Ordering) -> bool
        ensures { result ≡ holds_at self order }
    {
        match self {
            Cmp::Eq => order == Ordering::Equal,
            Cmp::Ne => order != Ordering::Equal,
            Cmp::Lt => order == Ordering::Less,
            Cmp::Le => order != Ordering::Greater,
            Cmp::Gt => order == Ordering::Greater,
            Cmp::Ge => order != Ordering::Less,
        }
    }
}

impl Value {
    /// What kind of value it is.
    pub fn kind(&self) -> ValueKind
        ensures { result ≡ kind_of self.now }
    {
        match self {
            Value::Int(_) => ValueKind::Int,
            Value::Text(_) => ValueKind::Text,
        }
    }

    /// An equal value.
    pub fn duplicate(&self, alloc: Global) -> Result<Value, NoMemory>
        ensures { IfOk result (λ copy. copy ≡ self.now) }
    {
        match self {
            Value::Int(number) => Ok(Value::Int(*number)),
            Value::Text(text) => Ok(Value::Text(text.duplicate(alloc)?)),
        }
    }

    /// Does the comparison hold of these two values? It is meant for values of one kind; of two kinds, an
    /// int counts as below a text. Takes no memory.
    pub fn test(&self, cmp: Cmp, other: &Value) -> bool
        ensures { result ≡ value_test cmp self.now other.now }
    {
        cmp.holds_at(self.cmp(other))
    }
}
