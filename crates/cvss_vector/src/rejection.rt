//! Why a text is rejected. Nothing is copied: a reason borrows the part of the text that it names.

ghost use Rattle.std.specs.Prelude.{◌≡◌};
ghost use Rattle.cvss_text.specs.private.Walk.{reason_of};
ghost use Rattle.cvss_text.specs.private.Routing.{IsPrintable, why_of};
ghost use Rattle.cvss_vector.specs.Dispatch.{without_version, wrapped};
ghost use Rattle.cvss_vector.specs.Rejections.{rejection_of};
ghost use Rattle.cvss_vector.specs.declared.metric_type.MetricType.TheVariants as of;
ghost use Rattle.cvss_vector.specs.private.{IsReasonFor, IsReportable};
ghost use Rattle.cvss_vector.specs.v4.Vector.{v4};

use crate::metric_type::MetricType;
use crate::one_version::OneVersion;
use crate::segment::Segment;
use crate::v4;
use cvss_text::route::NoVersion;
use cvss_text::walk::Fault;

/// The first reason why a text is rejected, with the part of the text or the metric that it names.
#[derive(Clone, Copy)]
pub enum Rejection<'a> {
    /// A component has no colon, or more than one.
    BadComponent(Segment<'a>),
    /// The prefix is not `CVSS`.
    WrongPrefix(Segment<'a>),
    /// The version is not supported.
    WrongVersion(Segment<'a>),
    /// No metric has this name.
    UnknownName(Segment<'a>),
    /// The metric has no such value.
    BadValue(MetricType, Segment<'a>),
    /// The metric occurs twice.
    Repeated(MetricType),
    /// A mandatory metric is missing.
    Missing(MetricType),
}

/// Why bytes are the text of no vector.
#[derive(Clone, Copy)]
pub enum ReadError<'a> {
    /// The bytes are not UTF-8.
    NotUtf8,
    /// The text is rejected.
    Invalid(Rejection<'a>),
}

impl<'a> From<Fault<'a, cvss_base::v4::MetricType>> for Rejection<'a> {
    ghost from_gives = { λ fault rejection. rejection_of rejection ≡ wrapped of.V4 (reason_of v4 fault) };

    fn from(fault: Fault<'a, cvss_base::v4::MetricType>) -> Rejection<'a> {
        Rejection::of_version::<v4::Vector>(fault)
    }
}

impl<'a> Rejection<'a> {
    /// The reason why a text says no version.
    pub(crate) fn without_version(why: NoVersion<'a>) -> Rejection<'a>
        ensures reason { rejection_of result ≡ without_version (why_of why.entry) }
        ensures reportable { IsPrintable why.entry → IsReportable result }
    {
        match why {
            NoVersion::InvalidComponent(piece) => Rejection::BadComponent(Segment::given(piece)),
            NoVersion::InvalidPrefix(prefix) => Rejection::WrongPrefix(Segment::given(prefix)),
            NoVersion::UnsupportedVersion(version) => Rejection::WrongVersion(Segment::given(
                version,
            )),
        }
    }

    /// The reason of a fault that one version found.
    pub(crate) fn of_version<V: OneVersion>(fault: Fault<'a, V::Kind>) -> Rejection<'a>
        ensures { IsReasonFor V.version V.wrap fault.entry result }
    {
        match fault {
            Fault::InvalidComponent(piece) => Rejection::BadComponent(Segment::given(piece)),
            Fault::InvalidPrefix(prefix) => Rejection::WrongPrefix(Segment::given(prefix)),
            Fault::UnsupportedVersion(version) => Rejection::WrongVersion(Segment::given(version)),
            Fault::UnknownMetric(name) => Rejection::UnknownName(Segment::read(
                V::any_case(),
                name,
            )),
            Fault::InvalidMetric(kind, value) => {
                Rejection::BadValue(V::of_any(kind), Segment::read(V::any_case(), value))
            }
            Fault::DuplicateMetric(kind) => Rejection::Repeated(V::of_any(kind)),
            Fault::MissingMandatoryMetric(kind) => Rejection::Missing(V::of_any(kind)),
        }
    }
}
