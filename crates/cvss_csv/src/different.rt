//! The vectors of a record that have rows of their own.

ghost use Rattle.std.specs.Prelude.{◌≡◌, [], All, IfOk, IsTrue, ◌↔◌};
ghost use Rattle.cvss_csv.specs.Cells.{AreEqual};
ghost use Rattle.cvss_csv.specs.Rows.{HasEqual};
ghost use Rattle.cvss_csv.specs.Tallies.{IsCanonicalOf, IsKept, IsRead, kept_in};

use crate::notes::Notes;
use crate::tally::are_same;
use crate::vector::push_canonical;
use cvss_lines::OutputBuffer;
use cvss_vector::Cvss;
use std::alloc::{AllocError, Global};

/// The texts of the vectors that are found in a record, of those that count as one the first.
#[derive(Drop)]
pub(crate) struct Different {
    pub(crate) kept: Vec<Kept>,
    alloc: Global,
}

/// The text of a vector that is found.
#[derive(Drop)]
pub(crate) struct Kept {
    pub(crate) text: Vec<u8>,
    /// The canonical text of the vector, if the text denotes one: it is read once, and compared with many.
    canonical: Option<Vec<u8>>,
}

impl Different {
    pub(crate) fn new(alloc: Global) -> Different {
        Different {
            kept: Vec::new(alloc),
            alloc,
        }
    }

    /// Begins a record.
    pub(crate) fn clear(&mut self)
        ensures { IsKept self.new [] }
    {
        self.kept.clear();
    }
}

impl Notes for Different {
    ghost is_of = { IsKept };

    fn note(&mut self, text: &[u8]) -> Result<(), AllocError> {
        let found = Kept {
            text: Vec::from_slice(self.alloc, text)?,
            canonical: canonical_of(self.alloc, text)?,
        };
        if has_equal(&self.kept, &found) {
            return Ok(());
        }
        self.kept.push(found)?;
        Ok(())
    }
}

/// The canonical text of the vector that a text denotes, if it denotes one.
fn canonical_of(alloc: Global, text: &[u8]) -> Result<Option<Vec<u8>>, AllocError>
    ensures { IfOk result (λ canonical. IsCanonicalOf canonical text.now) }
{
    let Some(cvss) = Cvss::read_bytes(text) else {
        return Ok(None);
    };
    let mut canonical = OutputBuffer {
        bytes: Vec::new(alloc),
    };
    push_canonical(&cvss, &mut canonical)?;
    Ok(Some(canonical.bytes))
}

/// Whether a text counts as one vector with one of these.
fn has_equal(kept: &[Kept], found: &Kept) -> bool
    ensures { All IsRead kept.now → IsRead found.now
        → IsTrue result ↔ HasEqual (kept_in kept.now) found.now.text.items }
{
    let mut left = kept;
    while let Some((each, rest)) = left.split_first() {
        if are_equal(each, found) {
            return true;
        }
        left = rest;
    }
    false
}

/// Whether two texts count as one vector.
fn are_equal(one: &Kept, other: &Kept) -> bool
    ensures { IsRead one.now → IsRead other.now
        → IsTrue result ↔ AreEqual one.now.text.items other.now.text.items }
{
    match (&one.canonical, &other.canonical) {
        (Some(one), Some(other)) => are_same(one.as_slice(), other.as_slice()),
        (None, None) => are_same(one.text.as_slice(), other.text.as_slice()),
        (Some(_), None) => false,
        (None, Some(_)) => false,
    }
}
