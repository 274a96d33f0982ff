//! Numbers for versions, severities and nomenclatures.

ghost use Rattle.std.specs.Prelude.{◌≡◌, ◌≤◌, pos};
ghost use Rattle.cvss_ffi.specs.Scores.{IsSeverityNumber, nomenclature_of_any, severity_number as number_of_severity, version_number as number_of_version};

use cvss_base::Severity;
use cvss_score::v4::Nomenclature;
use cvss_vector::{Bounds, Cvss};

/// What stands for nothing: a text that is rejected has no score, and CVSS v4.0 no temporal score.
pub const NOTHING: i32 = -1;

/// 20, 30, 31 or 40.
pub(crate) fn version_number(cvss: &Cvss) -> i32
    ensures { result ≡ number_of_version cvss.now }
{
    match cvss {
        Cvss::CvssV20(_) => 20,
        Cvss::CvssV30(_) => 30,
        Cvss::CvssV31(_) => 31,
        Cvss::CvssV40(_) => 40,
    }
}

/// The number of the severity of so many tenths by the bounds of a version, 20, 30, 31 or 40; `NOTHING`
/// of another version, and of tenths outside 0 to 100.
pub fn severity(version: i32, tenths: i32) -> i32
    ensures { IsSeverityNumber version tenths result }
{
    match u8::try_from(tenths) {
        Ok(tenths) if tenths <= 100 => severity_of_tenths(version, tenths),
        _ => NOTHING,
    }
}

fn severity_of_tenths(version: i32, tenths: u8) -> i32
    requires { tenths ≤ 100 }
    ensures { IsSeverityNumber version (pos tenths) result }
{
    match version {
        20 => severity_number(Bounds::OfV2.severity_of(tenths)),
        30 | 31 | 40 => severity_number(Bounds::SinceV3.severity_of(tenths)),
        _ => NOTHING,
    }
}

/// 0 for none, to 4 for critical.
#[inline(always)]
pub(crate) fn severity_number(severity: Severity) -> i32
    ensures { result ≡ number_of_severity severity }
{
    match severity {
        Severity::None => 0,
        Severity::Low => 1,
        Severity::Medium => 2,
        Severity::High => 3,
        Severity::Critical => 4,
    }
}

/// Of CVSS v4.0 the sum of 1 where there are environmental metrics, and 2 where there are threat metrics;
/// of other versions `NOTHING`.
pub(crate) fn nomenclature_of(cvss: &Cvss) -> i32
    ensures { result ≡ nomenclature_of_any cvss.now }
{
    let Cvss::CvssV40(vector) = cvss else {
        return NOTHING;
    };
    match vector.nomenclature() {
        Nomenclature::CvssB => 0,
        Nomenclature::CvssBE => 1,
        Nomenclature::CvssBT => 2,
        Nomenclature::CvssBTE => 3,
    }
}
