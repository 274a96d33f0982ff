//! Which base metrics a vector lacks, and vectors that may have to have all. Only a vector of CVSS v3 that
//! was read from a text may lack some.

ghost use Rattle.std.specs.Prelude.{◌≡◌, IfErr, IfOk, IsUtf8, None, OnOk};
ghost use Rattle.cvss_vector.specs.Answers.{HasScore};
ghost use Rattle.cvss_vector.specs.Complete.{IsReadErrorBy, first_missing, missing_by};
ghost use Rattle.cvss_vector.specs.Dispatch.{DenotesCvss};

use crate::metric_type::MetricType;
use crate::rejection::{ReadError, Rejection};
use crate::v3;
use crate::vector::Cvss;
use cvss_base::v3::MetricType::{A, AC, AV, C, I, PR, S, UI};

impl Cvss {
    /// The first base metric of CVSS v3 that the vector lacks, in the order of the specification (v3.1,
    /// section 6). The specification wants all eight; without some a vector scores as if these did no
    /// harm. A text of CVSS v2 or v4.0 that lacks a base metric is rejected, so there it is `None`.
    #[inline(always)]
    pub fn first_missing(&self) -> Option<MetricType>
        ensures { result ≡ first_missing self.now }
    {
        match self {
            Cvss::CvssV20(_) | Cvss::CvssV40(_) => None,
            Cvss::CvssV30(vector) | Cvss::CvssV31(vector) => match vector {
                v3::Vector { av: None, .. } => Some(MetricType::V3(AV)),
                v3::Vector { ac: None, .. } => Some(MetricType::V3(AC)),
                v3::Vector { pr: None, .. } => Some(MetricType::V3(PR)),
                v3::Vector { ui: None, .. } => Some(MetricType::V3(UI)),
                v3::Vector { s: None, .. } => Some(MetricType::V3(S)),
                v3::Vector { c: None, .. } => Some(MetricType::V3(C)),
                v3::Vector { i: None, .. } => Some(MetricType::V3(I)),
                v3::Vector { a: None, .. } => Some(MetricType::V3(A)),
                _ => None,
            },
        }
    }

    /// The first base metric that the vector lacks, unless it may lack some.
    #[inline(always)]
    pub fn missing_by(&self, allow_incomplete: bool) -> Option<MetricType>
        ensures { result ≡ missing_by allow_incomplete self.now }
    {
        if allow_incomplete {
            None
        } else {
            self.first_missing()
        }
    }

    /// The vector that a text denotes, which lacks no base metric unless it may.
    ///
    /// # Errors
    ///
    /// Why there is none, or else the first base metric of CVSS v3 that the vector lacks.
    pub fn read_by(text: &[u8], allow_incomplete: bool) -> Result<Cvss, ReadError<'_>>
        ensures utf8 { OnOk result (IsUtf8 text.now) }
        ensures denoted { IfOk result (DenotesCvss text.now) }
        ensures complete { IfOk result (λ cvss. missing_by allow_incomplete cvss ≡ None) }
        ensures scored { IfOk result (λ cvss. HasScore cvss) }
        ensures error { IfErr result (IsReadErrorBy allow_incomplete text.now) }
    {
        let cvss = Cvss::read(text)?;
        match cvss.missing_by(allow_incomplete) {
            Some(metric) => Err(ReadError::Invalid(Rejection::Missing(metric))),
            None => Ok(cvss),
        }
    }
}
