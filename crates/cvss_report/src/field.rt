//! The members that the records of each version may have, in the order of their names: FIRST's JSON
//! schemas of CVSS v2.0, v3.0, v3.1 and v4.0.

ghost use Rattle.std.specs.Prelude.{◌≡◌, ◌≤◌, length};
ghost use Rattle.cvss_report.specs.Fields.{fields_of, name_of};

use crate::group::{score_member, severity_member};
use crate::names::{v2 as words_v2, v3 as words_v3, v4 as words_v4};
use cvss_base::v2::MetricType as KindV2;
use cvss_base::v3::MetricType as KindV3;
use cvss_base::v4::MetricType as KindV4;
use cvss_vector::{Cvss, Group};

/// A member of a record, by what it says of the vector.
#[derive(Clone, Copy)]
pub enum Field {
    /// The value of a metric of CVSS v2.
    V2(KindV2),
    /// The value of a metric of CVSS v3.
    V3(KindV3),
    /// The value of a metric of CVSS v4.0.
    V4(KindV4),
    /// The score of a group.
    Score(Group),
    /// The severity of a group's score.
    Severity(Group),
    /// The canonical text.
    Text,
    /// The version.
    Version,
}

impl Field {
    /// The member's name.
    pub fn name(self) -> &'static str
        ensures { result.now ≡ name_of self }
    {
        match self {
            Field::V2(kind) => words_v2::entry(kind).0,
            Field::V3(kind) => words_v3::entry(kind).0,
            Field::V4(kind) => words_v4::entry(kind).0,
            Field::Score(group) => score_member(group),
            Field::Severity(group) => severity_member(group),
            Field::Text => "vectorString",
            Field::Version => "version",
        }
    }
}

/// The members that the records of the vector's version may have, in the order of their names.
pub fn fields_of(cvss: &Cvss) -> &'static [Field]
    ensures { result.now ≡ fields_of cvss.now }
{
    match cvss {
        Cvss::CvssV20(_) => words_v2::FIELDS,
        Cvss::CvssV30(_) | Cvss::CvssV31(_) => words_v3::FIELDS,
        Cvss::CvssV40(_) => words_v4::FIELDS,
    }
}
