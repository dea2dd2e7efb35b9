//! The value of an attribute, and its pair with a key.
ghost use Rattle.std.specs.Prelude.{◌≡◌, IfOk, IsOk};
ghost use Rattle.mvt_attrs.specs.Values.{LiesInPlace};

use crate::text_ref::TextRef;
use mvt_base::Text;
use std::alloc::{AllocError, Global};

/// A value of one of the seven kinds (4.1, message Value), whose text is a `T`.
///
/// Numbers of different kinds are different values: `Int(5)`, `Uint(5)` and `Sint(5)` are three.
/// A float or a double is its bit pattern, which says nothing about the number.
#[derive(Debug, Drop, PartialEq, Eq, PartialOrd, Ord, Hash)]
pub enum ValueOf<T> {
    Text(T),
    Float(u32),
    Double(u64),
    Int(i64),
    Uint(u64),
    Sint(i64),
    Bool(bool),
}

/// A value that keeps its text.
pub type Value = ValueOf<Text>;

/// A value whose text is lent. In contracts it is the same value.
pub type ValueRef<'a> = ValueOf<TextRef<'a>>;

/// The value whose text is made of another's, and whose number is the other's.
macro_rules! with_text {
    ($value:expr, $text:ident => $made:expr) => {
        match $value {
            ValueOf::Text($text) => ValueOf::Text($made),
            ValueOf::Float(bits) => ValueOf::Float(*bits),
            ValueOf::Double(bits) => ValueOf::Double(*bits),
            ValueOf::Int(number) => ValueOf::Int(*number),
            ValueOf::Uint(number) => ValueOf::Uint(*number),
            ValueOf::Sint(number) => ValueOf::Sint(*number),
            ValueOf::Bool(truth) => ValueOf::Bool(*truth),
        }
    };
}

impl ValueOf<Text> {
    /// An equal value, which shares a text's memory.
    ///
    /// # Errors
    ///
    /// As `Text::copy`.
    #[inline(always)]
    pub fn copy(&self, alloc: Global) -> Result<Value, AllocError>
        ensures same { IfOk result (λ copy. copy ≡ self.now) }
        ensures in_place { LiesInPlace self.now → IsOk result }
    {
        Ok(with_text!(self, text => text.copy(alloc)?))
    }

    /// This value, lent.
    #[inline(always)]
    pub fn lent(&self) -> ValueRef<'_>
        ensures { result ≡ self.now }
    {
        with_text!(self, text => TextRef::of(text.as_str()))
    }
}

impl<'a> ValueOf<TextRef<'a>> {
    /// This value once more.
    #[inline(always)]
    pub fn again(&self) -> ValueRef<'a>
        ensures { result ≡ self.now }
    {
        with_text!(self, text => text.again())
    }

    /// The value that keeps a copy of this text.
    ///
    /// # Errors
    ///
    /// When memory runs out: a text of more than 14 bytes is the only value that takes any.
    #[inline(always)]
    pub fn kept(&self, alloc: Global) -> Result<Value, AllocError>
        ensures same { IfOk result (λ value. value ≡ self.now) }
        ensures in_place { LiesInPlace self.now → IsOk result }
    {
        Ok(with_text!(self, text => Text::from_str(alloc, text.as_str())?))
    }
}

/// A key with its value.
#[derive(Debug, Drop, PartialEq, Eq)]
pub struct Attribute {
    pub key: Text,
    pub value: Value,
}

const _: () = prove!(std::mem::size_of::<Value>() == 24);
