//! How a text is read for a call.

ghost use Rattle.std.specs.Prelude.{◌≡◌, IfErr, IfNone, IfOk, IfSome, OnOk, IsUtf8};
ghost use Rattle.cvss_vector.specs.Answers.{HasScore};
ghost use Rattle.cvss_vector.specs.Complete.{IsReadErrorBy};
ghost use Rattle.cvss_ffi.specs.Accepted.{IsRejected, IsVectorOf, may_lack};
ghost use Rattle.cvss_ffi.specs.Calls.{IsWhy};
ghost use Rattle.cvss_ffi.specs.declared.rejection.NoVector.TheVariants.{Text};
ghost use Rattle.cvss_ffi.specs.private.Rejection.{reported};

use cvss_vector::{Cvss, ReadError, Rejection};

/// Whether vectors of CVSS v3 may lack base metrics.
#[inline(always)]
pub(crate) fn may_lack(flags: u32) -> bool
    ensures { result ≡ may_lack flags }
{
    flags & 1 != 0
}

/// The vector that a text denotes, which lacks no base metric unless it may, or else why there is none.
#[inline(always)]
pub(crate) fn read(text: &[u8], flags: u32) -> Result<Cvss, ReadError<'_>>
    ensures accepted { IfOk result (IsVectorOf flags text.now) }
    ensures scored { IfOk result (λ cvss. HasScore cvss) }
    ensures utf8 { OnOk result (IsUtf8 text.now) }
    ensures rejected { IfErr result (λ _. IsRejected flags text.now) }
    ensures error { IfErr result (IsReadErrorBy (may_lack flags) text.now) }
    ensures why { IfErr result (λ error. IsWhy flags text.now (reported (Text error))) }
{
    let cvss = Cvss::read(text)?;
    match cvss.missing_by(may_lack(flags)) {
        Some(metric) => Err(ReadError::Invalid(Rejection::Missing(metric))),
        None => Ok(cvss),
    }
}

/// The same vector, if there is one.
#[inline(always)]
pub(crate) fn read_vector(text: &[u8], flags: u32) -> Option<Cvss>
    ensures accepted { IfSome result (IsVectorOf flags text.now) }
    ensures scored { IfSome result (λ cvss. HasScore cvss) }
    ensures rejected { IfNone result (IsRejected flags text.now) }
{
    let cvss = Cvss::read_bytes(text)?;
    match cvss.missing_by(may_lack(flags)) {
        Some(_) => None,
        None => Some(cvss),
    }
}
