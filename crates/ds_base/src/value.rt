//! Values, texts, directions and the small numbers.
ghost use Rattle.std.specs.Prelude.{◌≡◌, IfOk};
ghost use Rattle.ds_base.specs.Same.{same_value};

use crate::copies::Copies;
use std::alloc::{AllocError, Global};
use std::marker::Model;

/// A timestamp of the cluster, a whole number.
#[derive(Clone, Copy, Debug, PartialEq, Eq, PartialOrd, Ord)]
pub struct Stamp(pub u64);

/// The sequence number of a transaction's write; 0 stands before the first.
#[derive(Clone, Copy, Debug, PartialEq, Eq, PartialOrd, Ord)]
pub struct Seq(pub u32);

/// The number of a transaction, from 1; 0 stands for a batch without one.
#[derive(Clone, Copy, Debug, PartialEq, Eq, PartialOrd, Ord)]
pub struct TxnNo(pub u32);

/// A direction over the keys: ascending or descending.
#[derive(Clone, Copy, Debug, PartialEq, Eq)]
pub enum Dir {
    Forward,
    Reverse,
}

/// A text. A contract sees its bytes, in UTF-8.
#[derive(Debug, Drop)]
pub struct Text {
    text: String,
}

impl Model for Text {
    ghost use Rattle.std.specs.Prelude.{ℕ, List, string_bytes};

    ghost Value = { List ℕ };

    ghost view = { λ t. string_bytes t.text };
}

impl Text {
    ghost use Rattle.std.specs.Prelude.{string_bytes};

    /// A copy of the text.
    pub fn of(alloc: Global, text: &str) -> Result<Text, AllocError>
        ensures { IfOk result (λ t. t ≡ text.now) }
    {
        Ok(Text {
            text: String::from_str(alloc, text)?,
        })
    }

    /// The text that the string holds.
    pub fn from_string(text: String) -> Text
        ensures { result ≡ string_bytes text }
    {
        Text { text }
    }

    /// The characters.
    pub fn as_str(&self) -> &str
        ensures { result.now ≡ self.now }
    {
        self.text.as_str()
    }
}

impl Clone for Text {
    ghost is_clone = { λ text copy. copy ≡ text };

    fn clone(&self) -> Result<Text, AllocError> {
        Ok(Text {
            text: self.text.clone()?,
        })
    }
}

impl Copies for Text {
    fn copy(&self, _alloc: Global) -> Result<Text, AllocError> {
        self.clone()
    }
}

/// What a key holds.
#[derive(Clone, Debug, Drop)]
pub enum Value {
    Text(Text),
    Int(i64),
}

impl Value {
    /// Whether the two are the same text or the same number.
    pub fn is_same(&self, other: &Value) -> bool
        ensures { result ≡ same_value self.now other.now }
    {
        match (self, other) {
            (Value::Text(a), Value::Text(b)) => a.as_str() == b.as_str(),
            (Value::Int(a), Value::Int(b)) => *a == *b,
            _ => false,
        }
    }
}

impl Copies for Value {
    fn copy(&self, _alloc: Global) -> Result<Value, AllocError> {
        self.clone()
    }
}
