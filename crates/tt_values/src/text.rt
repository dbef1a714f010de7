ghost use Rattle.std.specs.Prelude.{◌≡◌, ◌==◌, ◌≤◌, length, IfOk};
ghost use Rattle.std.specs.Str.{bytes_eq};
ghost use Rattle.std.specs.String.{string_bytes};

use std::alloc::{AllocError, Global};
use std::fmt::{Debug, Formatter};
use std::marker::Model;
use std::sync::Arc;
use std::{fmt, str};

/// The maximal length of a text that lies in the value itself, in bytes.
const SHORT_BYTES: usize = 14;

/// A text of up to 14 bytes, in no memory of its own.
#[derive(Drop)]
struct ShortText {
    bytes: [u8; 14],
    len: u8,
}

#[derive(Drop)]
enum ShortOrLong {
    Short(ShortText),
    Long(Arc<String>),
}

/// An immutable text in UTF-8, for a value of a row or for a name. A short one takes no memory, and
/// the owners of a long one share it: `clone` allocates nothing. Contracts see its bytes.
pub struct Text {
    text: ShortOrLong,
}

impl Model for ShortText {
    ghost use Rattle.std.specs.Prelude.{◌≡◌, ◌≤◌, List, ℕ, take, length, IsUtf8};

    ghost Value = { List ℕ };

    ghost view = { λ s. take s.len s.bytes };

    ghost invariant = { λ s.
        (s.len ≤ 14) × (length s.bytes ≡ 14) × ∥ IsUtf8 (take s.len s.bytes) ∥₁ };
}

impl Model for Text {
    ghost use Rattle.std.specs.Prelude.{List, ℕ};
    ghost use Rattle.tt_values.specs.Text.{text_view};

    ghost Value = { List ℕ };

    ghost view = { λ t. text_view t.text };
}

// Written by hand, so that every place that drops a text calls one function.
impl Drop for Text {
    fn drop(self) {
        let Text { text: _ } = self;
    }
}

impl ShortText {
    fn of_str(text: &str) -> ShortText
        requires { length text.now ≤ 14 }
        ensures { result ≡ text.now }
    {
        let mut bytes = [0; 14];
        bytes[..text.len()].copy_from_slice(text.as_bytes());
        ShortText {
            bytes,
            len: text.len() as u8,
        }
    }

    fn as_str(&self) -> &str
        ensures { result.now ≡ self.now }
    {
        unsafe { str::from_utf8_unchecked(&self.bytes[..self.len as usize]) }
    }

    fn as_bytes(&self) -> &[u8]
        ensures { result.now ≡ self.now }
    {
        &self.bytes[..self.len as usize]
    }

    fn copy(&self) -> ShortText
        ensures { result ≡ self.now }
    {
        ShortText {
            bytes: self.bytes,
            len: self.len,
        }
    }
}

impl Text {
    /// Moves the string to memory that owners can share; the result is its first owner. A short
    /// string moves into the result.
    pub fn new(alloc: Global, text: String) -> Result<Self, AllocError>
        ensures { IfOk result (λ t. t ≡ string_bytes text) }
    {
        let text = if text.len() <= SHORT_BYTES {
            ShortOrLong::Short(ShortText::of_str(text.as_str()))
        } else {
            ShortOrLong::Long(Arc::new(alloc, text)?)
        };
        Ok(Text { text })
    }

    /// A text with a copy of these bytes. Up to 14 take no memory.
    pub fn copied(alloc: Global, text: &str) -> Result<Self, AllocError>
        ensures { IfOk result (λ t. t ≡ text.now) }
    {
        let text = if text.len() <= SHORT_BYTES {
            ShortOrLong::Short(ShortText::of_str(text))
        } else {
            ShortOrLong::Long(Arc::new(alloc, String::from_str(alloc, text)?)?)
        };
        Ok(Text { text })
    }

    pub fn as_str(&self) -> &str
        ensures { result.now ≡ self.now }
    {
        match &self.text {
            ShortOrLong::Short(text) => text.as_str(),
            ShortOrLong::Long(text) => text.as_str(),
        }
    }

    /// The length in bytes.
    pub fn len(&self) -> usize
        ensures { result ≡ length self.now }
    {
        self.as_str().len()
    }

    pub fn is_empty(&self) -> bool
        ensures { result ≡ (length self.now == 0) }
    {
        self.as_str().is_empty()
    }
}

impl Debug for Text {
    fn fmt<W: fmt::Write>(&self, f: &mut Formatter<W>) -> fmt::Result {
        let text = self.as_str();
        f.debug_struct("Text").field("text", &text).finish()
    }
}

impl PartialEq for Text {
    ghost use Rattle.std.specs.Str.{bytes_eq};
    ghost use Rattle.std.specs.Cmp as cmp;
    ghost use Rattle.std.proofs.lemmas.Cmp.{nat_list_eq_equiv};

    ghost eq = { bytes_eq };

    ghost laws = { cmp.partial_equiv_from_equiv nat_list_eq_equiv };

    fn eq(&self, other: &Self) -> bool {
        match (&self.text, &other.text) {
            (ShortOrLong::Short(text), ShortOrLong::Short(other)) => {
                are_same(text.as_bytes(), other.as_bytes())
            }
            _ => self.as_str() == other.as_str(),
        }
    }
}

/// A clone copies a short text, and shares a long one.
impl Clone for Text {
    ghost use Rattle.std.specs.Prelude.{◌≡◌};

    ghost is_clone = { λ text copy. copy ≡ text };

    fn clone(&self) -> Result<Self, AllocError> {
        let text = match &self.text {
            ShortOrLong::Short(text) => ShortOrLong::Short(text.copy()),
            ShortOrLong::Long(text) => ShortOrLong::Long(Arc::try_clone(text)?),
        };
        Ok(Text { text })
    }
}

/// Whether both are the same bytes. A short text mostly has few, so that they are compared faster
/// one by one than many at a time.
fn are_same(bytes: &[u8], others: &[u8]) -> bool
    ensures { result ≡ bytes_eq bytes.now others.now }
{
    if bytes.len() != others.len() {
        return false;
    }
    for at in 0..bytes.len() {
        if bytes[at] != others[at] {
            return false;
        }
    }
    true
}
