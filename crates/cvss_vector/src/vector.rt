//! A vector of any version.

ghost use Rattle.std.specs.Prelude.{◌≡◌, ◌≤◌, ◌↔◌, IsTrue, IfSome, IsSome, IfOk, OnOk, IfErr, IsErrAnd, Some, Ok, Err, ℤ};
ghost use Rattle.cvss_vector.specs.Answers.{text_of};

use crate::bytes_error::BytesError;
use crate::metrics::Metrics;
use crate::reading::{bytes_error_of, read, read_error_of};
use crate::rejecting::error_of;
use crate::rejection::ReadError;
use crate::scoring::Scoring;
use crate::{v2, v3, v4};
use cvss_base::tenths::text_of as text_of_tenths;
use cvss_base::{Error, Severity, TENTH, severity_of_score};
use std::alloc::Global;
use std::fmt;

/// A vector of one of the versions.
#[derive(Clone, Copy, Debug, PartialEq, Eq)]
pub enum Cvss {
    /// CVSS v2.
    CvssV20(v2::Vector),
    /// CVSS v3.0, with minor version 0 where it was read from a text.
    CvssV30(v3::Vector),
    /// CVSS v3.1, with minor version 1 where it was read from a text.
    CvssV31(v3::Vector),
    /// CVSS v4.0.
    CvssV40(v4::Vector),
}

impl Cvss {
    ghost use Rattle.std.specs.Str.{IsUtf8};
    ghost use Rattle.cvss_base.specs.Rejection.{Rejection};
    ghost use Rattle.cvss_base.specs.Tenths.{IsInTenths, IsFromZeroToTen};
    ghost use Rattle.cvss_base.specs.Reported.{Reports, ReportsFirst};
    ghost use Rattle.cvss_vector.specs.Answers.{HasScore, IsScoreOf, IsScoreText, score_of_tenths, severity_by, metrics_of};
    ghost use Rattle.cvss_vector.specs.Bytes.{IsRejectedAs, ReportsWhyNot};
    ghost use Rattle.cvss_vector.specs.Dispatch.{DenotesCvss, IsFirstRejectionCvss, cvss_reason};
    ghost use Rattle.cvss_vector.specs.MetricsLeft.{metrics_left};
    ghost use Rattle.cvss_vector.specs.Rejections.{IsReadError, IsReadErrorFor};
    ghost use Rattle.cvss_vector.specs.declared.bytes_error.BytesError.TheVariants.{NotUtf8};
    ghost use Rattle.cvss_vector.specs.declared.rejection.ReadError.TheVariants as read_error;
    ghost use Rattle.cvss_vector.specs.declared.metric_type.MetricType.{MetricType};

    /// The vector that a text denotes, by the rules of the version that it says: CVSS v3.0, v3.1
    /// and v4.0 by a first piece `CVSS:` and version, and CVSS v2 without one. The two texts
    /// `CVSS:3.0` and `CVSS:3.1` denote none. Accepting takes no memory.
    ///
    /// # Errors
    ///
    /// The first reason why the text is no such vector. Where no rules apply it is
    /// `InvalidComponent` with the first piece, if the text has no slash or that piece no colon,
    /// `InvalidPrefix`, or `UnsupportedVersion`; else that of the version's own `from_str`.
    /// `OutOfMemory` replaces one that carries text.
    pub fn from_str(alloc: Global, text: &str) -> Result<Cvss, Error>
        // Accepted: what is given is what the text denotes, and each such vector is given; it has a
        // score.
        ensures denoted { IfOk result (λ cvss. DenotesCvss text.now cvss) }
        ensures accepts { (cvss : Cvss) → DenotesCvss text.now cvss → result ≡ Ok cvss }
        ensures scored { IfOk result (λ cvss. HasScore cvss) }
        // Rejected: for the first reason, and wherever there is one. Memory is the answer only where
        // the reason carries text.
        ensures rejected { IfErr result (ReportsFirst cvss_reason (IsFirstRejectionCvss text.now)) }
        ensures rejects { (reason : Rejection MetricType) → IsFirstRejectionCvss text.now reason
            → IsErrAnd result (Reports cvss_reason reason) }
    {
        match read(text.as_bytes()) {
            Ok(cvss) => Ok(cvss),
            Err(rejection) => Err(error_of(alloc, rejection)),
        }
    }

    /// The vector that bytes denote, by the rules of the version that they say. They are read once:
    /// whether they are UTF-8 is asked only where they are rejected, since a text that is accepted is
    /// ASCII.
    ///
    /// # Errors
    ///
    /// `NotUtf8` for bytes that are no text, and else the error of `from_str`.
    pub fn from_bytes(alloc: Global, text: &[u8]) -> Result<Cvss, BytesError>
        // Accepted: what is given is what the text denotes, and each such vector is given; it has a
        // score.
        ensures denoted { IfOk result (λ cvss. DenotesCvss text.now cvss) }
        ensures accepts { (cvss : Cvss) → DenotesCvss text.now cvss → result ≡ Ok cvss }
        ensures scored { IfOk result (λ cvss. HasScore cvss) }
        ensures utf8 { OnOk result (IsUtf8 text.now) }
        // Rejected: as no text wherever it is none, and else for the first reason, and wherever there
        // is one. Memory is the answer only where the reason carries text.
        ensures rejected { IfErr result (ReportsWhyNot text.now) }
        ensures not_utf8 { ¬ (IsUtf8 text.now) → result ≡ Err NotUtf8 }
        ensures rejects { (reason : Rejection MetricType) → IsFirstRejectionCvss text.now reason
            → IsErrAnd result (IsRejectedAs text.now reason) }
    {
        match read(text) {
            Ok(cvss) => Ok(cvss),
            Err(rejection) => Err(bytes_error_of(alloc, text, rejection)),
        }
    }

    /// The vector that bytes denote, as `from_bytes` gives it, but without memory: an error borrows
    /// the part of the text that it names.
    ///
    /// # Errors
    ///
    /// `NotUtf8` for bytes that are not UTF-8, and else the first reason why the text is rejected.
    pub fn read(text: &[u8]) -> Result<Cvss, ReadError<'_>>
        // Accepted: what is given is what the text denotes, and each such vector is given; it has a
        // score.
        ensures denoted { IfOk result (λ cvss. DenotesCvss text.now cvss) }
        ensures accepts { (cvss : Cvss) → DenotesCvss text.now cvss → result ≡ Ok cvss }
        ensures scored { IfOk result (λ cvss. HasScore cvss) }
        ensures utf8 { OnOk result (IsUtf8 text.now) }
        // Rejected: as not UTF-8 exactly where it is not, and else for the first reason, and wherever
        // there is one.
        ensures rejected { IfErr result (IsReadError text.now) }
        ensures not_utf8 { ¬ (IsUtf8 text.now) → result ≡ Err read_error.NotUtf8 }
        ensures rejects { (reason : Rejection MetricType) → IsFirstRejectionCvss text.now reason
            → IsErrAnd result (IsReadErrorFor text.now reason) }
    {
        match read(text) {
            Ok(cvss) => Ok(cvss),
            Err(rejection) => Err(read_error_of(text, rejection)),
        }
    }

    /// The vector that a text denotes, if there is one. It takes no memory.
    pub fn read_bytes(text: &[u8]) -> Option<Cvss>
        ensures denoted { IfSome result (λ cvss. DenotesCvss text.now cvss) }
        ensures accepts { (cvss : Cvss) → DenotesCvss text.now cvss → result ≡ Some cvss }
        ensures scored { IfSome result (λ cvss. HasScore cvss) }
        ensures utf8 { IsSome result → IsUtf8 text.now }
    {
        read(text).ok()
    }

    /// Whether the vector has a score, as each has that was read from a text: a vector of CVSS v4.0
    /// has none if a base metric is missing.
    pub fn has_score(&self) -> bool
        ensures { IsTrue result ↔ HasScore self.now }
    {
        match self {
            Cvss::CvssV40(vector) => vector.is_complete(),
            _ => true,
        }
    }

    /// The score of a vector that has one, in counts of 10^-24: the base score in CVSS v2 (guide,
    /// section 3.2.1) and v3 (v3.1 specification, section 7.1), and the score of CVSS v4.0
    /// (specification, section 8.2).
    pub fn score(&self) -> i128
        requires scored { HasScore self.now }
        ensures value { IsScoreOf self.now result }
        ensures range { IsInTenths IsFromZeroToTen result }
    {
        i128::from(self.tenths()) * TENTH
    }

    /// The tenths of the score of a vector that has one.
    // A call of its own: inlined wherever it is used, it would be a thirtieth of the module of
    // WebAssembly.
    #[inline(never)]
    pub fn tenths(&self) -> u8
        requires scored { HasScore self.now }
        ensures value { IsScoreOf self.now (score_of_tenths result) }
        ensures bound { result ≤ 100 }
    {
        self.tenths_as(Scoring::Published)
    }

    /// The score of a vector that has one, with one decimal.
    pub fn score_text(&self) -> &'static str
        requires scored { HasScore self.now }
        ensures { IsScoreText self.now result.now }
    {
        text_of_tenths(self.tenths())
    }

    /// The rating of the score of a vector that has one (v3.1 specification, section 5; v4.0
    /// specification, section 6; for CVSS v2 that of the National Vulnerability Database).
    pub fn severity(&self) -> Severity
        requires scored { HasScore self.now }
        ensures { (score : ℤ) → IsScoreOf self.now score → result ≡ severity_by self.now score }
    {
        self.severity_of(self.score())
    }

    /// The rating that the vector's version gives a score, in counts of 10^-24.
    pub fn severity_of(&self, score: i128) -> Severity
        ensures { result ≡ severity_by self.now score }
    {
        match self {
            Cvss::CvssV20(_) => v2::Score::new(score).severity(),
            _ => severity_of_score(score),
        }
    }

    /// The type and the spelling of each metric that the vector has. It takes no memory.
    pub fn metrics(&self) -> Metrics
        ensures { metrics_left result ≡ metrics_of self.now }
    {
        match self {
            Cvss::CvssV20(vector) => Metrics::V2(vector.metrics()),
            Cvss::CvssV30(vector) | Cvss::CvssV31(vector) => Metrics::V3(vector.metrics()),
            Cvss::CvssV40(vector) => Metrics::V4(vector.metrics()),
        }
    }
}

impl fmt::Display for Cvss {
    ghost output = { λ cvss. Some (text_of cvss) };

    fn fmt<W: fmt::Write>(&self, f: &mut fmt::Formatter<W>) -> fmt::Result {
        match self {
            Cvss::CvssV20(vector) => vector.fmt(f),
            Cvss::CvssV30(vector) | Cvss::CvssV31(vector) => vector.fmt(f),
            Cvss::CvssV40(vector) => vector.fmt(f),
        }
    }
}
