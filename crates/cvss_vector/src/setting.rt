//! Metrics that are set in a vector of any version, and vectors that are built from metrics alone. It
//! takes no memory: an error borrows the part of the text that it names.

ghost use Rattle.std.specs.Prelude.{◌≡◌, ◌≤◌, ℕ, IfOk, IfErr, IfSome, IsErrAnd, Ok, Option, length};
ghost use Rattle.cvss_base.specs.V4Types.{most_metrics};
ghost use Rattle.cvss_base.specs.Rejection as spec;
ghost use Rattle.cvss_base.specs.Text.{pieces};
ghost use Rattle.cvss_text.specs.Setting.{IsBuildReason, IsBuilt, IsSet, IsSetReason, components_in};
ghost use Rattle.cvss_vector.specs.Answers.{HasScore};
ghost use Rattle.cvss_vector.specs.Dispatch.{DenotesCvss, IsReasonOf};
ghost use Rattle.cvss_vector.specs.Rejections.{rejection_of};
ghost use Rattle.cvss_vector.specs.Setting.{IsBuiltAs, IsBuiltReason, IsOf, IsWith, IsWithReason, text_with};
ghost use Rattle.cvss_vector.specs.declared.metric_type.MetricType.{MetricType};
ghost use Rattle.cvss_vector.specs.private.{IsAnsweredBy};

use crate::one_version::OneVersion;
use crate::rejection::Rejection;
use crate::vector::Cvss;
use crate::{v2, v3, v4};
use cvss_text::setting::{build, set};

/// A version of CVSS.
#[derive(Clone, Copy, Debug, PartialEq, Eq)]
pub enum Version {
    V20,
    V30,
    V31,
    V40,
}

/// Why metrics are not set, or no vector is built.
#[derive(Clone, Copy)]
pub struct SetError<'a> {
    /// The index of the first component with which something is wrong, counted from 0; `None` where a
    /// mandatory metric is missing.
    pub index: Option<usize>,
    /// What is wrong: `BadComponent`, `UnknownName`, `BadValue`, `Repeated` or `Missing`.
    pub reason: Rejection<'a>,
}

impl Cvss {
    /// The vector with metrics set: components of any group of its version, as `E:A/MSI:S`, which a
    /// text joins by slashes, in any order and each metric once; in v3 and v4.0 in any ASCII case. A
    /// metric that the vector has gets the new value, and one that it has not is added. `X` and `ND`
    /// are values as any other and remove nothing. An empty text sets nothing. It takes no memory.
    ///
    /// # Errors
    ///
    /// The index of the first component with which something is wrong, and what: it has no colon, or
    /// more than one; no metric has its name; the metric has no such value; an earlier component names
    /// the same metric.
    pub fn with_metrics<'a>(&self, metrics: &'a str) -> Result<Cvss, SetError<'a>>
        // Accepted: what is given has these metrics, and all else as it was; each such vector is given.
        ensures accepted { IfOk result (IsWith self.now metrics.now) }
        ensures accepts { (cvss : Cvss) → IsWith self.now metrics.now cvss → result ≡ Ok cvss }
        ensures scored { HasScore self.now → IfOk result (λ cvss. HasScore cvss) }
        // Rejected: for the first component with which something is wrong, and wherever there is one.
        ensures rejected { IfErr result (λ error.
            IsWithReason self.now metrics.now error.index (rejection_of error.reason)) }
        ensures rejects { (index : Option ℕ) (reason : spec.Rejection MetricType)
            → IsWithReason self.now metrics.now index reason → IsErrAnd result (λ error.
            (error.index ≡ index) × (rejection_of error.reason ≡ reason)) }
        ensures bound { IfErr result (λ error. IfSome error.index (λ index. index ≤ most_metrics)) }
    {
        match self {
            Cvss::CvssV20(vector) => with_version(vector, 0, 0, metrics),
            Cvss::CvssV30(vector) => with_version(vector, vector.minor_version, 0, metrics),
            Cvss::CvssV31(vector) => with_version(vector, vector.minor_version, 1, metrics),
            Cvss::CvssV40(vector) => with_version(vector, vector.minor_version, 0, metrics),
        }
    }

    /// The vector of a version that components make, which a text joins by slashes, in any order and
    /// each metric once; in v3 and v4.0 in any ASCII case. In v3 base metrics may be missing. It takes
    /// no memory.
    ///
    /// # Errors
    ///
    /// As of `with_metrics`; where nothing is wrong with the components, the first mandatory metric that is
    /// missing. An empty text is one component without a colon.
    pub fn build<'a>(version: Version, metrics: &'a str) -> Result<Cvss, SetError<'a>>
        // Accepted: what is given has these metrics and no others; each such vector is given.
        ensures accepted { IfOk result (IsBuiltAs version metrics.now) }
        ensures accepts { (cvss : Cvss) → IsBuiltAs version metrics.now cvss → result ≡ Ok cvss }
        ensures scored { IfOk result (λ cvss. HasScore cvss) }
        ensures denoted { IfOk result (λ cvss. DenotesCvss (text_with version metrics.now) cvss) }
        // Rejected: for the first component with which something is wrong, or else for the first
        // mandatory metric that is missing, and wherever there is one.
        ensures rejected { IfErr result (λ error.
            IsBuiltReason version metrics.now error.index (rejection_of error.reason)) }
        ensures rejects { (index : Option ℕ) (reason : spec.Rejection MetricType)
            → IsBuiltReason version metrics.now index reason → IsErrAnd result (λ error.
            (error.index ≡ index) × (rejection_of error.reason ≡ reason)) }
        ensures bound { IfErr result (λ error. IfSome error.index (λ index. index ≤ most_metrics)) }
    {
        match version {
            Version::V20 => build_version::<v2::Vector>(0, metrics),
            Version::V30 => build_version::<v3::Vector>(0, metrics),
            Version::V31 => build_version::<v3::Vector>(1, metrics),
            Version::V40 => build_version::<v4::Vector>(0, metrics),
        }
    }
}

/// The vector with metrics set, of the minor version that is said, which need not be its own.
fn with_version<'a, V: OneVersion>(
    vector: &V,
    own: usize,
    said: usize,
    metrics: &'a str,
) -> Result<Cvss, SetError<'a>>
    requires own { V.version.front vector.now ≡ V.front own }
    requires few { length V.version.printed ≤ most_metrics }
    ensures { IsAnsweredBy
        (IsOf (V.joined said) (IsSet V.version vector.now (components_in metrics.now)))
        (λ index. IsReasonOf V.wrap (IsSetReason V.version (components_in metrics.now) index))
        result }
{
    match set(vector, V::without_metrics(own), metrics) {
        Ok(new) => Ok(new.join(said)),
        Err((index, fault)) => Err(SetError {
            index,
            reason: Rejection::of_version::<V>(fault),
        }),
    }
}

fn build_version<V: OneVersion>(minor_version: usize, metrics: &str) -> Result<Cvss, SetError<'_>>
    requires { length V.version.printed ≤ most_metrics }
    ensures { IsAnsweredBy
        (IsOf (V.joined minor_version) (IsBuilt V.version (V.front minor_version) (pieces metrics.now)))
        (λ index. IsReasonOf V.wrap (IsBuildReason V.version (pieces metrics.now) index))
        result }
{
    match build(V::without_metrics(minor_version), metrics) {
        Ok(new) => Ok(new.join(minor_version)),
        Err((index, fault)) => Err(SetError {
            index,
            reason: Rejection::of_version::<V>(fault),
        }),
    }
}
