//! A text of the crate's own: valid UTF-8, which contracts see as its bytes.

ghost use Rattle.std.specs.Prelude.{◌≡◌, ◌↔◌, ◌<◌, IsTrue, IfOk, length, string_bytes, string_len, nat_eq, refl};
ghost use Rattle.std.specs.Prelude.{IsUtf8};
ghost use Rattle.std.specs.Ordering.{nat_cmp, as_partial_cmp};
ghost use Rattle.std.specs.Cmp.{partial_equiv_from_equiv};
ghost use Rattle.std.specs.Cmp.Lexicographic.{pointwise, slice_cmp, nat_list_eq_equiv, nat_list_cmp_total, texts_po, texts_ties};

use crate::short::Short;
use std::alloc::{AllocError, Global};
use std::cmp::Ordering;
use std::convert::AsStr;
use std::fmt::{self, Debug, Formatter, Write};
use std::marker::Model;

/// A text: valid UTF-8 of any length. A text of up to 14 bytes stands in place and takes no memory of its own. Contracts see
/// its bytes.
pub struct Txt {
    kept: Kept,
}

// Where the bytes stand.
#[derive(Drop)]
enum Kept {
    Short(Short),
    Long(Box<String>),
}

impl Model for Txt {
    ghost use Rattle.std.specs.Prelude.{List, ℕ};
    ghost use Rattle.ov_value.specs.Texts.{bytes_of};

    ghost Value = { List ℕ };

    ghost view = { λ t. bytes_of t.kept };
}

impl Drop for Txt {
    // By hand, so that to drop a text is one step in proofs about what holds it, wherever its bytes stand.
    fn drop(self) {
        let Txt { kept: _kept } = self;
    }
}

impl Txt {
    /// A copy of `text`.
    pub fn new(alloc: Global, text: &str) -> Result<Txt, AllocError>
        ensures ok { IfOk result (λ made. made ≡ text.now) }
    {
        match Short::new(text) {
            Some(short) => Ok(Txt {
                kept: Kept::Short(short),
            }),
            None => Txt::long(String::from_str(alloc, text)?),
        }
    }

    /// The same text, whose bytes are copied only where they are few.
    pub fn from_string(text: String) -> Result<Txt, AllocError>
        ensures ok { IfOk result (λ made. made ≡ string_bytes text) }
    {
        match Short::new(text.as_str()) {
            Some(short) => Ok(Txt {
                kept: Kept::Short(short),
            }),
            None => Txt::long(text),
        }
    }

    // The text with its bytes where they are.
    fn long(text: String) -> Result<Txt, AllocError>
        ensures ok { IfOk result (λ made. made ≡ string_bytes text) }
    {
        let alloc = *text.allocator();
        Ok(Txt {
            kept: Kept::Long(Box::new(alloc, text)?),
        })
    }

    /// The text.
    pub fn as_str(&self) -> &str
        ensures text { result.now ≡ self.now }
        ensures utf8 { IsUtf8 result.now }
    {
        match &self.kept {
            Kept::Short(short) => short.as_str(),
            Kept::Long(text) => text.as_str(),
        }
    }

    /// The bytes of the text, in UTF-8.
    pub fn as_bytes(&self) -> &[u8]
        ensures bytes { result.now ≡ self.now }
        ensures utf8 { IsUtf8 result.now }
    {
        self.as_str().as_bytes()
    }

    /// The number of its bytes.
    pub fn len(&self) -> usize
        ensures { result ≡ length self.now }
    {
        self.as_str().len()
    }

    /// Whether it has no bytes.
    pub fn is_empty(&self) -> bool
        ensures { IsTrue result ↔ (length self.now ≡ 0) }
    {
        self.as_str().len() == 0
    }

    /// A copy of it.
    pub fn copy(&self, alloc: Global) -> Result<Txt, AllocError>
        ensures ok { IfOk result (λ made. made ≡ self.now) }
    {
        Txt::new(alloc, self.as_str())
    }
}

impl AsStr for Txt {
    ghost text = { λ t. t };

    fn as_str(&self) -> &str {
        Txt::as_str(self)
    }
}

impl Debug for Txt {
    fn fmt<W: Write>(&self, f: &mut Formatter<W>) -> Result<(), fmt::Error> {
        self.as_str().fmt(f)
    }
}

impl PartialEq for Txt {
    ghost eq = { pointwise nat_eq };

    ghost laws = { partial_equiv_from_equiv nat_list_eq_equiv };

    fn eq(&self, other: &Txt) -> bool
        ensures pointwise { result ≡ pointwise nat_eq self.now other.now }
        ensures same { IsTrue result ↔ (self.now ≡ other.now) }
    {
        self.as_str() == other.as_str()
    }
}

impl Eq for Txt {
    ghost laws = { nat_list_eq_equiv };
}

impl PartialOrd for Txt {
    ghost partial_cmp = { as_partial_cmp (slice_cmp nat_cmp) };

    ghost laws = { texts_po };

    fn partial_cmp(&self, other: &Txt) -> Option<Ordering> {
        Some(self.cmp(other))
    }
}

impl Ord for Txt {
    ghost cmp = { slice_cmp nat_cmp };

    ghost total = { nat_list_cmp_total };

    ghost matches_partial_cmp = { λ x y. refl };

    ghost matches_eq = { texts_ties };

    fn cmp(&self, other: &Txt) -> Ordering {
        self.as_str().cmp(other.as_str())
    }
}
