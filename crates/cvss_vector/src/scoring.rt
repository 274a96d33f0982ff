//! The scores of a vector of any version, and which of them is reported.

ghost use Rattle.std.specs.Prelude.{◌≡◌, ◌≤◌, IsTrue, option_map};
ghost use Rattle.cvss_base.specs.V2Types as types_v2;
ghost use Rattle.cvss_base.specs.V3Types as types_v3;
ghost use Rattle.cvss_base.specs.Version.{IsComplete};
ghost use Rattle.cvss_metric.specs.v2.Table.{spelling_of as spelling_v2};
ghost use Rattle.cvss_metric.specs.v3.Table.{spelling_of as spelling_v3};
ghost use Rattle.cvss_vector.specs.Answers.{HasScore, score_of_tenths};
ghost use Rattle.cvss_vector.specs.Scores.{IsGroupScore, IsOverallScore, IsScoreAs, defines, is_defined, is_undefined, overall_group, overall_v2, overall_v3};
ghost use Rattle.cvss_vector.specs.declared.group.Group.TheVariants.{Base, Environmental, Temporal};
ghost use Rattle.cvss_vector.specs.declared.vector.Cvss.TheVariants.{CvssV20, CvssV30, CvssV31, CvssV40};
ghost use Rattle.cvss_vector.specs.v2.Vector as vector_v2;
ghost use Rattle.cvss_vector.specs.v3.Vector as vector_v3;
ghost use Rattle.cvss_vector.specs.v4.Vector.{v4};

use crate::group::Group;
use crate::vector::Cvss;
use crate::{v2, v3, v4};
use cvss_metric::{v2 as metric_v2, v3 as metric_v3};
use cvss_score::v4::Nomenclature;

/// Which score of a vector is reported.
#[derive(Clone, Copy, Debug, PartialEq, Eq)]
pub enum Scoring {
    /// As the Rust crate `cvss` has it: the base score of CVSS v2 and v3, the score of v4.0.
    Published,
    /// The overall score, which counts all metrics in the vector.
    Overall,
    /// The base score; of CVSS v4.0 the score of CVSS-B.
    Base,
}

impl Cvss {
    /// The tenths of a score of a vector that has one.
    #[inline(always)]
    pub fn tenths_as(&self, scoring: Scoring) -> u8
        requires scored { HasScore self.now }
        ensures value { IsScoreAs scoring self.now (score_of_tenths result) }
        ensures bound { result ≤ 100 }
    {
        match self {
            Cvss::CvssV20(vector) => tenths_v2(vector, scoring),
            Cvss::CvssV30(vector) | Cvss::CvssV31(vector) => tenths_v3(vector, scoring),
            Cvss::CvssV40(vector) => tenths_v4(vector, scoring),
        }
    }

    /// The tenths of the overall score of a vector that has one: the score of CVSS v4.0; in v2 and v3
    /// the environmental score if an environmental metric is defined, else the temporal score if a
    /// temporal metric is, else the base score. A metric with the value `X` or `ND` is not defined.
    // A call of its own: inlined wherever it is used, it would make the module of WebAssembly larger.
    #[inline(never)]
    pub fn overall_tenths(&self) -> u8
        requires scored { HasScore self.now }
        ensures value { IsOverallScore self.now (score_of_tenths result) }
        ensures bound { result ≤ 100 }
    {
        self.tenths_as(Scoring::Overall)
    }

    /// The tenths of the base score of a vector that has a score; of CVSS v4.0 that of CVSS-B.
    pub fn base_tenths(&self) -> u8
        requires scored { HasScore self.now }
        ensures value { IsGroupScore self.now Base (score_of_tenths result) }
        ensures bound { result ≤ 100 }
    {
        self.tenths_as(Scoring::Base)
    }
}

// The base score is computed in place. Other scores are computed by calls that take a copy of the vector,
// so that a vector with base metrics alone can stay in registers.
#[inline(always)]
fn tenths_v2(vector: &v2::Vector, scoring: Scoring) -> u8
    ensures value { IsScoreAs scoring (CvssV20 vector.now) (score_of_tenths result) }
    ensures bound { result ≤ 100 }
{
    match (scoring, has_base_alone_v2(vector)) {
        (Scoring::Overall, false) => overall_v2(*vector),
        (Scoring::Overall, true) | (Scoring::Published | Scoring::Base, _) => vector.tenths(),
    }
}

#[inline(always)]
fn tenths_v3(vector: &v3::Vector, scoring: Scoring) -> u8
    ensures v30 { IsScoreAs scoring (CvssV30 vector.now) (score_of_tenths result) }
    ensures v31 { IsScoreAs scoring (CvssV31 vector.now) (score_of_tenths result) }
    ensures bound { result ≤ 100 }
{
    match (scoring, has_base_alone_v3(vector)) {
        (Scoring::Overall, false) => overall_v3(*vector),
        (Scoring::Overall, true) | (Scoring::Published | Scoring::Base, _) => vector.tenths(),
    }
}

#[inline(always)]
fn tenths_v4(vector: &v4::Vector, scoring: Scoring) -> u8
    requires { IsComplete v4 vector.now }
    ensures value { IsScoreAs scoring (CvssV40 vector.now) (score_of_tenths result) }
    ensures bound { result ≤ 100 }
{
    match scoring {
        Scoring::Published | Scoring::Overall => vector.tenths(),
        Scoring::Base => base_v4(*vector),
    }
}

/// Whether the vector has no optional metric: then its overall score is its base score.
#[inline(always)]
fn has_base_alone_v2(vector: &v2::Vector) -> bool
    ensures { IsTrue result → overall_v2 vector.now ≡ Base }
{
    matches!(
        vector,
        v2::Vector {
            e: None,
            rl: None,
            rc: None,
            cdp: None,
            td: None,
            cr: None,
            ir: None,
            ar: None,
            ..
        }
    )
}

#[inline(always)]
fn has_base_alone_v3(vector: &v3::Vector) -> bool
    ensures { IsTrue result → overall_v3 vector.now ≡ Base }
{
    matches!(
        vector,
        v3::Vector {
            e: None,
            rl: None,
            rc: None,
            cr: None,
            ir: None,
            ar: None,
            mav: None,
            mac: None,
            mpr: None,
            mui: None,
            ms: None,
            mc: None,
            mi: None,
            ma: None,
            ..
        }
    )
}

#[inline(never)]
fn overall_v2(vector: v2::Vector) -> u8
    ensures value { IsGroupScore (CvssV20 vector) (overall_v2 vector) (score_of_tenths result) }
    ensures bound { result ≤ 100 }
{
    match group_v2(&vector) {
        Group::Base => vector.tenths(),
        Group::Temporal => vector.temporal_tenths(),
        Group::Environmental => vector.environmental_tenths(),
    }
}

#[inline(never)]
fn overall_v3(vector: v3::Vector) -> u8
    ensures v30 { IsGroupScore (CvssV30 vector) (overall_v3 vector) (score_of_tenths result) }
    ensures v31 { IsGroupScore (CvssV31 vector) (overall_v3 vector) (score_of_tenths result) }
    ensures bound { result ≤ 100 }
{
    match group_v3(&vector) {
        Group::Base => vector.tenths(),
        Group::Temporal => vector.temporal_tenths(),
        Group::Environmental => vector.environmental_tenths(),
    }
}

#[inline(never)]
fn base_v4(vector: v4::Vector) -> u8
    requires { IsComplete v4 vector }
    ensures value { IsGroupScore (CvssV40 vector) Base (score_of_tenths result) }
    ensures bound { result ≤ 100 }
{
    vector.tenths_by(Nomenclature::CvssB)
}

/// The group whose score counts all metrics that are defined.
#[inline(always)]
pub(crate) fn group_v2(vector: &v2::Vector) -> Group
    ensures { result ≡ overall_v2 vector.now }
{
    overall_group(has_environmental_v2(vector), has_temporal_v2(vector))
}

#[inline(always)]
pub(crate) fn group_v3(vector: &v3::Vector) -> Group
    ensures { result ≡ overall_v3 vector.now }
{
    overall_group(has_environmental_v3(vector), has_temporal_v3(vector))
}

#[inline(always)]
fn overall_group(environmental: bool, temporal: bool) -> Group
    ensures { result ≡ overall_group environmental temporal }
{
    if environmental {
        Group::Environmental
    } else if temporal {
        Group::Temporal
    } else {
        Group::Base
    }
}

fn has_temporal_v2(vector: &v2::Vector) -> bool
    ensures { result ≡ defines vector_v2.v2 types_v2.group_of vector.now Temporal }
{
    defines_v2(vector.e) || defines_v2(vector.rl) || defines_v2(vector.rc)
}

fn has_environmental_v2(vector: &v2::Vector) -> bool
    ensures { result ≡ defines vector_v2.v2 types_v2.group_of vector.now Environmental }
{
    defines_v2(vector.cdp)
        || defines_v2(vector.td)
        || defines_v2(vector.cr)
        || defines_v2(vector.ir)
        || defines_v2(vector.ar)
}

fn has_temporal_v3(vector: &v3::Vector) -> bool
    ensures { result ≡ defines vector_v3.v3 types_v3.group_of vector.now Temporal }
{
    defines_v3(vector.e) || defines_v3(vector.rl) || defines_v3(vector.rc)
}

fn has_environmental_v3(vector: &v3::Vector) -> bool
    ensures { result ≡ defines vector_v3.v3 types_v3.group_of vector.now Environmental }
{
    defines_v3(vector.cr)
        || defines_v3(vector.ir)
        || defines_v3(vector.ar)
        || defines_v3(vector.mav)
        || defines_v3(vector.mac)
        || defines_v3(vector.mpr)
        || defines_v3(vector.mui)
        || defines_v3(vector.ms)
        || defines_v3(vector.mc)
        || defines_v3(vector.mi)
        || defines_v3(vector.ma)
}

/// Whether there is a value, and it defines its metric.
#[inline(always)]
fn defines_v2<M: metric_v2::MetricValue>(value: Option<M>) -> bool
    ensures { result ≡ is_defined (option_map (λ metric. spelling_v2 M.KIND (M.value metric)) value) }
{
    match value {
        Some(metric) => !is_undefined(metric.spelling()),
        None => false,
    }
}

#[inline(always)]
fn defines_v3<M: metric_v3::MetricValue>(value: Option<M>) -> bool
    ensures { result ≡ is_defined (option_map (λ metric. spelling_v3 M.KIND (M.value metric)) value) }
{
    match value {
        Some(metric) => !is_undefined(metric.spelling()),
        None => false,
    }
}

/// Whether the spelling of a value is `X` or `ND`: its metric is not defined.
pub fn is_undefined(value: &str) -> bool
    ensures { result ≡ is_undefined value.now }
{
    value == "X" || value == "ND"
}
