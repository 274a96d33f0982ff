//! What is published of a vector: a score and its severity.

ghost use Rattle.std.specs.Prelude.{◌≡◌};
ghost use Rattle.cvss_vector.specs.Answers.{HasScore, score_of_tenths, severity_by};
ghost use Rattle.cvss_vector.specs.Published.{IsPublished, severity_within};
ghost use Rattle.cvss_vector.specs.declared.published.Bounds.TheVariants.{OfV2, SinceV3};

use crate::scoring::Scoring;
use crate::vector::Cvss;
use cvss_base::Severity;

/// By which bounds a score is rated.
#[derive(Clone, Copy, Debug, PartialEq, Eq)]
pub enum Bounds {
    /// Those of the National Vulnerability Database for CVSS v2.
    OfV2,
    /// Those of CVSS v3 and v4.0 (v3.1 specification, section 5; v4.0 specification, section 6).
    SinceV3,
}

/// A score, and how it is rated.
#[derive(Clone, Copy, Debug, PartialEq, Eq)]
pub struct Published {
    /// The tenths of the score, from 0 to 100.
    pub tenths: u8,
    /// The bounds by which the vector's version rates it.
    pub bounds: Bounds,
}

impl Bounds {
    /// The severity of so many tenths.
    #[inline(always)]
    pub fn severity_of(self, tenths: u8) -> Severity
        ensures { result ≡ severity_within self (score_of_tenths tenths) }
    {
        match self {
            Bounds::OfV2 => severity_of_v2(tenths),
            Bounds::SinceV3 => severity_since_v3(tenths),
        }
    }
}

#[inline(always)]
fn severity_of_v2(tenths: u8) -> Severity
    ensures { result ≡ severity_within OfV2 (score_of_tenths tenths) }
{
    if tenths < 40 {
        Severity::Low
    } else if tenths < 70 {
        Severity::Medium
    } else {
        Severity::High
    }
}

#[inline(always)]
fn severity_since_v3(tenths: u8) -> Severity
    ensures { result ≡ severity_within SinceV3 (score_of_tenths tenths) }
{
    if tenths < 1 {
        Severity::None
    } else if tenths < 40 {
        Severity::Low
    } else if tenths < 70 {
        Severity::Medium
    } else if tenths < 90 {
        Severity::High
    } else {
        Severity::Critical
    }
}

impl Cvss {
    /// The bounds by which the vector's version rates scores.
    #[inline(always)]
    pub fn bounds(&self) -> Bounds
        ensures { severity_by self.now ≡ severity_within result }
    {
        match self {
            Cvss::CvssV20(_) => Bounds::OfV2,
            Cvss::CvssV30(_) | Cvss::CvssV31(_) | Cvss::CvssV40(_) => Bounds::SinceV3,
        }
    }

    /// The severity that the vector's version gives a score of so many tenths.
    #[inline(always)]
    pub fn severity_of_tenths(&self, tenths: u8) -> Severity
        ensures { result ≡ severity_by self.now (score_of_tenths tenths) }
    {
        self.bounds().severity_of(tenths)
    }

    /// A score of a vector that has one, and how it is rated.
    #[inline(always)]
    pub fn published(&self, scoring: Scoring) -> Published
        requires scored { HasScore self.now }
        ensures { IsPublished scoring self.now result }
    {
        Published {
            tenths: self.tenths_as(scoring),
            bounds: self.bounds(),
        }
    }
}
