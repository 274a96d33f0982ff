//! The vectors that are found in a record.

ghost use Rattle.std.specs.Prelude.{◌≡◌, [], IfOk, IsTrue, ◌↔◌};
ghost use Rattle.cvss_csv.specs.Cells.{AreEqual, DenoteOneVector};
ghost use Rattle.cvss_vector.specs.Answers.{text_of};
ghost use Rattle.cvss_csv.specs.Tallies.{IsTally};

use crate::notes::Notes;
use crate::vector::push_canonical;
use cvss_lines::OutputBuffer;
use cvss_vector::Cvss;
use std::alloc::{AllocError, Global};

/// How many different vectors are found.
#[derive(Clone, Copy, Drop)]
pub(crate) enum Count {
    None,
    One,
    Several,
}

/// The vectors that are found in a record.
#[derive(Drop)]
pub(crate) struct Tally {
    pub(crate) count: Count,
    /// The text of the first.
    pub(crate) first: Vec<u8>,
    /// Room for the canonical text of the first.
    canonical: OutputBuffer,
    /// Room for that of another.
    other: OutputBuffer,
}

impl Tally {
    pub(crate) fn new(alloc: Global) -> Tally {
        Tally {
            count: Count::None,
            first: Vec::new(alloc),
            canonical: OutputBuffer {
                bytes: Vec::new(alloc),
            },
            other: OutputBuffer {
                bytes: Vec::new(alloc),
            },
        }
    }

    /// Begins a record.
    pub(crate) fn clear(&mut self)
        ensures { IsTally self.new [] }
    {
        self.count = Count::None;
    }

    /// Whether a text counts as one vector with the first.
    fn is_equal(&mut self, text: &[u8]) -> Result<bool, AllocError>
        ensures equal { IfOk result (λ equal. IsTrue equal ↔ AreEqual self.old.first.items text.now) }
        ensures first { self.new.first ≡ self.old.first }
        ensures count { self.new.count ≡ self.old.count }
    {
        if self.first.as_slice() == text {
            return Ok(true);
        }
        denote_one_vector(&self.first, text, &mut self.canonical, &mut self.other)
    }
}

impl Notes for Tally {
    ghost is_of = { IsTally };

    fn note(&mut self, text: &[u8]) -> Result<(), AllocError> {
        match self.count {
            Count::None => {
                self.first.clear();
                self.first.extend_from_slice(text)?;
                self.count = Count::One;
            }
            Count::One => {
                if !self.is_equal(text)? {
                    self.count = Count::Several;
                }
            }
            Count::Several => {}
        }
        Ok(())
    }
}

/// Whether two texts denote vectors that have one canonical text.
fn denote_one_vector(
    one: &[u8],
    other: &[u8],
    canonical: &mut OutputBuffer,
    other_canonical: &mut OutputBuffer,
) -> Result<bool, AllocError>
    ensures { IfOk result (λ same. IsTrue same ↔ DenoteOneVector one.now other.now) }
{
    let Some(first) = Cvss::read_bytes(one) else {
        return Ok(false);
    };
    let Some(second) = Cvss::read_bytes(other) else {
        return Ok(false);
    };
    have_one_text(&first, &second, canonical, other_canonical)
}

/// Whether two vectors have one canonical text.
fn have_one_text(
    first: &Cvss,
    second: &Cvss,
    canonical: &mut OutputBuffer,
    other_canonical: &mut OutputBuffer,
) -> Result<bool, AllocError>
    ensures { IfOk result (λ same. IsTrue same ↔ (text_of first.now ≡ text_of second.now)) }
{
    canonical.bytes.clear();
    push_canonical(first, canonical)?;
    other_canonical.bytes.clear();
    push_canonical(second, other_canonical)?;
    Ok(are_same(&canonical.bytes, &other_canonical.bytes))
}

pub(crate) fn are_same(one: &[u8], other: &[u8]) -> bool
    ensures { IsTrue result ↔ (one.now ≡ other.now) }
{
    one == other
}
