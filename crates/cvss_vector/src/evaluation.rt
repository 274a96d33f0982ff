//! All that is reported of the scores of a vector.

ghost use Rattle.std.specs.Prelude.{◌≡◌, option_map};
ghost use Rattle.cvss_base.specs.Version.{IsComplete};
ghost use Rattle.cvss_vector.specs.Answers.{HasScore};
ghost use Rattle.cvss_vector.specs.Evaluation.{IsEvaluation};
ghost use Rattle.cvss_vector.specs.Scores.{version_of, version_text};
ghost use Rattle.cvss_vector.specs.declared.vector.Cvss.TheVariants.{CvssV20, CvssV31, CvssV40};
ghost use Rattle.cvss_vector.specs.private.Tenths.{AreTenths, evaluation_of, rated_by, tenths_in};
ghost use Rattle.cvss_vector.specs.v4.Vector.{v4};

use crate::group::Group;
use crate::metric_type::MetricType;
use crate::scoring::{group_v2, group_v3};
use crate::setting::Version;
use crate::vector::Cvss;
use crate::{v2, v3, v4};
use cvss_base::Severity;
use cvss_score::v4::Nomenclature;

/// A score, and its severity.
#[derive(Clone, Copy)]
pub struct Rated {
    /// The tenths of the score, from 0 to 100.
    pub tenths: u8,
    /// The severity that the vector's version gives it.
    pub severity: Severity,
}

/// What is reported of a vector that has a score.
#[derive(Clone, Copy)]
pub struct Evaluation {
    pub version: Version,
    /// The score that counts all metrics in the vector.
    pub overall: Rated,
    /// The base score; of CVSS v4.0 the score of CVSS-B.
    pub base: Rated,
    /// The temporal score, which CVSS v4.0 does not have.
    pub temporal: Option<Rated>,
    /// The environmental score, which CVSS v4.0 does not have.
    pub environmental: Option<Rated>,
    /// The first base metric that the vector lacks.
    pub missing: Option<MetricType>,
}

/// The tenths of the scores of a vector.
#[derive(Clone, Copy)]
struct Tenths {
    base: u8,
    temporal: Option<u8>,
    environmental: Option<u8>,
    overall: u8,
}

impl Evaluation {
    /// What is reported of a vector that has a score. No score is computed twice.
    pub fn of(cvss: &Cvss) -> Evaluation
        requires { HasScore cvss.now }
        ensures { IsEvaluation cvss.now result }
    {
        match cvss {
            Cvss::CvssV20(vector) => evaluation_of(cvss, tenths_of_v2(vector)),
            Cvss::CvssV30(vector) => evaluation_of(cvss, tenths_of_v3(vector)),
            Cvss::CvssV31(vector) => evaluation_of(cvss, tenths_of_v3(vector)),
            Cvss::CvssV40(vector) => evaluation_of(cvss, tenths_of_v4(vector)),
        }
    }
}

#[inline(always)]
fn evaluation_of(cvss: &Cvss, tenths: Tenths) -> Evaluation
    ensures { result ≡ evaluation_of cvss.now tenths }
{
    Evaluation {
        version: cvss.version(),
        overall: rated_by(cvss, tenths.overall),
        base: rated_by(cvss, tenths.base),
        temporal: optional_by(cvss, tenths.temporal),
        environmental: optional_by(cvss, tenths.environmental),
        missing: cvss.first_missing(),
    }
}

#[inline(always)]
fn rated_by(cvss: &Cvss, tenths: u8) -> Rated
    ensures { result ≡ rated_by cvss.now tenths }
{
    Rated {
        tenths,
        severity: cvss.severity_of_tenths(tenths),
    }
}

#[inline(always)]
fn optional_by(cvss: &Cvss, tenths: Option<u8>) -> Option<Rated>
    ensures { result ≡ option_map (rated_by cvss.now) tenths }
{
    match tenths {
        Some(tenths) => Some(rated_by(cvss, tenths)),
        None => None,
    }
}

fn tenths_of_v2(vector: &v2::Vector) -> Tenths
    ensures { AreTenths (CvssV20 vector.now) result }
{
    let base = vector.tenths();
    let temporal = vector.temporal_tenths();
    let environmental = vector.environmental_tenths();
    Tenths {
        base,
        temporal: Some(temporal),
        environmental: Some(environmental),
        overall: tenths_in(group_v2(vector), base, temporal, environmental),
    }
}

fn tenths_of_v3(vector: &v3::Vector) -> Tenths
    ensures { AreTenths (CvssV31 vector.now) result }
{
    let (base, temporal, environmental) = vector.all_tenths();
    Tenths {
        base,
        temporal: Some(temporal),
        environmental: Some(environmental),
        overall: tenths_in(group_v3(vector), base, temporal, environmental),
    }
}

fn tenths_of_v4(vector: &v4::Vector) -> Tenths
    requires { IsComplete v4 vector.now }
    ensures { AreTenths (CvssV40 vector.now) result }
{
    let overall = vector.tenths();
    Tenths {
        base: vector.tenths_given(Nomenclature::CvssB, overall),
        temporal: None,
        environmental: None,
        overall,
    }
}

/// The tenths of a group's score.
fn tenths_in(group: Group, base: u8, temporal: u8, environmental: u8) -> u8
    ensures { result ≡ tenths_in group base temporal environmental }
{
    match group {
        Group::Base => base,
        Group::Temporal => temporal,
        Group::Environmental => environmental,
    }
}

impl Cvss {
    /// The version of the vector.
    pub fn version(&self) -> Version
        ensures { result ≡ version_of self.now }
    {
        match self {
            Cvss::CvssV20(_) => Version::V20,
            Cvss::CvssV30(_) => Version::V30,
            Cvss::CvssV31(_) => Version::V31,
            Cvss::CvssV40(_) => Version::V40,
        }
    }
}

impl Version {
    /// The version as it is written, such as `3.1`.
    pub fn as_str(self) -> &'static str
        ensures { result.now ≡ version_text self }
    {
        match self {
            Version::V20 => "2.0",
            Version::V30 => "3.0",
            Version::V31 => "3.1",
            Version::V40 => "4.0",
        }
    }
}
