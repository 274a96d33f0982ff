//! How many vectors of each severity there are, and how many texts are rejected.

ghost use Rattle.std.specs.Prelude.{◌≡◌, ◌++◌, IfOk, OnOk};
ghost use Rattle.cvss_report.specs.Tallies.{count_text, no_tally, one_more, others_text, severe_text, with_one};

use cvss_base::Severity;
use cvss_lines::OutputBuffer;
use std::alloc::{AllocError, Global};
use std::fmt::{self, Write};

/// How many vectors of each severity there are, and how many texts are rejected. No number grows beyond the
/// greatest of its type.
#[derive(Clone, Copy, Drop)]
pub struct Tally {
    pub critical: u64,
    pub high: u64,
    pub medium: u64,
    pub low: u64,
    pub none: u64,
    pub rejected: u64,
}

impl Tally {
    /// Nothing is counted.
    pub fn new() -> Tally
        ensures { result ≡ no_tally }
    {
        Tally {
            critical: 0,
            high: 0,
            medium: 0,
            low: 0,
            none: 0,
            rejected: 0,
        }
    }

    /// One more text is counted, by the severity of its vector if it is accepted.
    #[rattlefmt::skip]
    pub fn with(self, severity: Option<Severity>) -> Tally
        ensures { result ≡ with_one severity self }
    {
        match severity {
            Some(Severity::Critical) => Tally { critical: one_more(self.critical), ..self },
            Some(Severity::High) => Tally { high: one_more(self.high), ..self },
            Some(Severity::Medium) => Tally { medium: one_more(self.medium), ..self },
            Some(Severity::Low) => Tally { low: one_more(self.low), ..self },
            Some(Severity::None) => Tally { none: one_more(self.none), ..self },
            None => Tally { rejected: one_more(self.rejected), ..self },
        }
    }
}

/// One more, unless that is beyond the type.
pub fn one_more(count: u64) -> u64
    ensures { result ≡ one_more count }
{
    count.saturating_add(1)
}

/// What is printed of what was counted: a line for each severity, and one for what is rejected.
///
/// # Errors
///
/// Out of memory.
pub fn count_text(alloc: Global, tally: Tally) -> Result<OutputBuffer, AllocError>
    ensures { IfOk result (λ text. text.bytes.items ≡ count_text tally) }
{
    let mut text = OutputBuffer {
        bytes: Vec::new(alloc),
    };
    match write_count(tally, &mut text) {
        Ok(()) => Ok(text),
        Err(_) => Err(AllocError),
    }
}

fn write_count(tally: Tally, text: &mut OutputBuffer) -> fmt::Result
    ensures { OnOk result (text.new.bytes.items ≡ text.old.bytes.items ++ count_text tally) }
{
    write_severe(tally, text)?;
    write_others(tally, text)
}

#[tactic(auto, using(cvss_lines::proofs::TextsLemmas::appended))]
fn write_others(tally: Tally, text: &mut OutputBuffer) -> fmt::Result
    ensures { OnOk result (text.new.bytes.items ≡ text.old.bytes.items ++ others_text tally) }
{
    write!(
        text,
        "low {}\nnone {}\nrejected {}\n",
        tally.low, tally.none, tally.rejected
    )
}

#[tactic(auto, using(cvss_lines::proofs::TextsLemmas::appended))]
fn write_severe(tally: Tally, text: &mut OutputBuffer) -> fmt::Result
    ensures { OnOk result (text.new.bytes.items ≡ text.old.bytes.items ++ severe_text tally) }
{
    write!(
        text,
        "critical {}\nhigh {}\nmedium {}\n",
        tally.critical, tally.high, tally.medium
    )
}
