//! The groups of metrics that have scores of their own, as a record has them (guide, section 3.2; v3.1
//! specification, section 7).

ghost use Rattle.std.specs.Prelude.{◌≡◌};
ghost use Rattle.cvss_vector.specs.declared.vector.Cvss.TheVariants.{CvssV20, CvssV30};
ghost use Rattle.cvss_report.specs.Groups.{has_group, score_member, severity_member};
ghost use Rattle.cvss_report.specs.Record.{reports_group};

use crate::{v2, v3};
use cvss_text::print::Printed;
use cvss_text::walk::Components;
use cvss_vector::{Cvss, Group};

/// The name of the member that holds a group's score.
pub fn score_member(group: Group) -> &'static str
    ensures { result.now ≡ score_member group }
{
    match group {
        Group::Base => "baseScore",
        Group::Temporal => "temporalScore",
        Group::Environmental => "environmentalScore",
    }
}

/// The name of the member that holds the severity of a group's score.
pub fn severity_member(group: Group) -> &'static str
    ensures { result.now ≡ severity_member group }
{
    match group {
        Group::Base => "baseSeverity",
        Group::Temporal => "temporalSeverity",
        Group::Environmental => "environmentalSeverity",
    }
}

/// Whether the vector's record has the group's score: that of an optional group where the vector has
/// a metric of it, be it that the metric is not defined. Records of CVSS v4.0 have `baseScore` alone.
pub(crate) fn is_reported(group: Group, cvss: &Cvss) -> bool
    ensures { result ≡ reports_group cvss.now group }
{
    match (group, cvss) {
        (Group::Base, _) => true,
        (_, Cvss::CvssV20(vector)) => is_in_v2(group, vector),
        (_, Cvss::CvssV30(vector) | Cvss::CvssV31(vector)) => is_in_v3(group, vector),
        (_, Cvss::CvssV40(_)) => false,
    }
}

/// Whether a vector of CVSS v2 has an optional metric of the group.
pub fn is_in_v2(group: Group, vector: &v2::Vector) -> bool
    ensures { result ≡ has_group (CvssV20 vector.now) group }
{
    v2::Vector::printed().iter().any(|kind| group.has_metrics(kind.group())
        && vector.spelling(*kind).is_some())
}

/// Whether a vector of CVSS v3 has an optional metric of the group.
pub fn is_in_v3(group: Group, vector: &v3::Vector) -> bool
    ensures { result ≡ has_group (CvssV30 vector.now) group }
{
    v3::Vector::printed().iter().any(|kind| group.has_metrics(kind.group())
        && vector.spelling(*kind).is_some())
}
