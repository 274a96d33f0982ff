//! What is found of the vector at a location of a document.

ghost use Rattle.std.specs.Prelude.{◌≡◌, ◌&&◌, IfOk, Some, map};
ghost use Rattle.cvss_audit.specs.Differences.{difference_view};
ghost use Rattle.cvss_report.specs.Tallies.{at_most};
ghost use Rattle.cvss_audit.specs.Findings.{HasScoreIn, IsFinding, IsFoundFor, IsRatedIf, IsRatedIn, agrees, finding_view, is_allowed, lines_about, nothing_differs};
ghost use Rattle.cvss_audit.specs.Inputs.{input_view};
ghost use Rattle.cvss_audit.specs.Locations.{location_view};
ghost use Rattle.cvss_vector.specs.Answers.{HasScore};

use crate::disagreements::difference::{Difference, differences_at};
use crate::documents::input::Input;
use crate::locations::location::Location;
use cvss_base::Error;
use cvss_vector::{Cvss, Evaluation, Rated};
use std::alloc::{AllocError, Global};

/// What is found of the vector at a location.
#[derive(Drop)]
pub(crate) enum Finding<'a> {
    /// A vector, and where the document disagrees with it.
    Vector(Cvss, Vec<Difference<'a>>),
    /// Why there is none.
    Rejected(String),
}

impl<'a> Finding<'a> {
    /// What is found at a location.
    ///
    /// # Errors
    ///
    /// Out of memory.
    pub(crate) fn at(alloc: Global, location: &Location<'a>) -> Result<Finding<'a>, AllocError>
        ensures is { IfOk result (λ finding. IsFinding (location_view location.now) (finding_view finding)) }
        ensures scored { IfOk result (λ finding. HasScoreIn (finding_view finding)) }
    {
        match location.text {
            Some(text) => Finding::of_text(alloc, location, text),
            None => Ok(Finding::Rejected(String::from_str(alloc, "not a string")?)),
        }
    }

    /// What is found where a text is.
    fn of_text(
        alloc: Global,
        location: &Location<'a>,
        text: &str,
    ) -> Result<Finding<'a>, AllocError>
        ensures is { IfOk result (λ finding. IsFoundFor (location_view location.now) (Some text.now)
            (finding_view finding)) }
        ensures scored { IfOk result (λ finding. HasScoreIn (finding_view finding)) }
    {
        match Cvss::from_str(alloc, text) {
            Ok(cvss) => {
                let differences = differences_at(alloc, &cvss, location)?;
                Ok(Finding::Vector(cvss, differences))
            }
            Err(Error::OutOfMemory) => Err(AllocError),
            Err(error) => Ok(Finding::Rejected(error.to_string(alloc)?)),
        }
    }

    /// Whether there is a vector, nothing differs, and it lacks nothing that it may not lack.
    pub(crate) fn agrees(&self, input: Input<'_>) -> bool
        ensures { result ≡ agrees (input_view input.entry) (finding_view self.now) }
    {
        match self {
            Finding::Vector(cvss, differences) => all_right(input, cvss, differences),
            Finding::Rejected(_) => false,
        }
    }

    /// The score and the severity of its vector with all metrics in it, if there is one that lacks nothing
    /// that it may not lack.
    pub(crate) fn rated(&self, input: Input<'_>) -> Option<Rated>
        requires { HasScoreIn (finding_view self.now) }
        ensures { IsRatedIn (input_view input.entry) (finding_view self.now) result }
    {
        match self {
            Finding::Vector(cvss, _) => rated_if(is_allowed(input, cvss), cvss),
            Finding::Rejected(_) => None,
        }
    }

    /// How many lines for people there are about it.
    pub(crate) fn lines(&self, input: Input<'_>) -> u64
        ensures { result ≡ lines_about (input_view input.entry) (finding_view self.now) }
    {
        match self {
            Finding::Vector(cvss, differences) => {
                let missing = u64::from(!is_allowed(input, cvss));
                missing.saturating_add(differences.len() as u64)
            }
            Finding::Rejected(_) => 1,
        }
    }
}

/// The score and the severity of a vector, if it may be as it is.
fn rated_if(allowed: bool, cvss: &Cvss) -> Option<Rated>
    requires { HasScore cvss.now }
    ensures { IsRatedIf allowed cvss.now result }
{
    if allowed {
        Some(Evaluation::of(cvss).overall)
    } else {
        None
    }
}

/// Whether nothing differs, and a vector lacks nothing that it may not lack.
fn all_right(input: Input<'_>, cvss: &Cvss, differences: &[Difference<'_>]) -> bool
    ensures { result ≡ nothing_differs (map difference_view differences.now)
        && is_allowed (input_view input.entry) cvss.now }
{
    match differences {
        [] => is_allowed(input, cvss),
        [_, ..] => false,
    }
}

/// Whether a vector lacks no base metric, or may lack some.
fn is_allowed(input: Input<'_>, cvss: &Cvss) -> bool
    ensures { result ≡ is_allowed (input_view input.entry) cvss.now }
{
    input.allow_incomplete || cvss.first_missing().is_none()
}
