//! How a text is read by the rules of the version that it says. It takes no memory: a reason borrows
//! the part of the text that it names.

ghost use Rattle.std.specs.Prelude.{◌≡◌, ◌↔◌, IsTrue, IsUtf8, Err};
ghost use Rattle.cvss_text.specs.Route.{ToNoVersion, route_of};
ghost use Rattle.cvss_text.specs.private.Routing as is_reported;
ghost use Rattle.cvss_text.specs.private.Routing.{why_of};
ghost use Rattle.cvss_vector.specs.Bytes.{IsRejectedAs};
ghost use Rattle.cvss_vector.specs.Rejections.{IsReadErrorFor, rejection_of};
ghost use Rattle.cvss_vector.specs.private.{IsRead, IsReportable, IsRouted};

use crate::bytes_error::BytesError;
use crate::one_version::OneVersion;
use crate::rejecting::error_of;
use crate::rejection::{ReadError, Rejection};
use crate::vector::Cvss;
use crate::{v2, v3, v4};
use cvss_text::route::{NoVersion, Route, route_of_text};
use cvss_text::walk::read_text;
use std::alloc::Global;

/// The vector that a text denotes, or the first reason why there is none.
pub(crate) fn read(text: &[u8]) -> Result<Cvss, Rejection<'_>>
    ensures { IsRead text.now result }
{
    match route_of_text(text) {
        Route::V20 => read_version::<v2::Vector>(text, text, 0),
        Route::V30(components) => read_version::<v3::Vector>(text, components, 0),
        Route::V31(components) => read_version::<v3::Vector>(text, components, 1),
        Route::V40(components) => read_version::<v4::Vector>(text, components, 0),
        Route::Unversioned(why) => Err(unread(text, why)),
    }
}

/// The vector that a text denotes by the rules of a version, or the first reason why there is none.
// A call of its own for each version keeps the vectors apart: joined in one place, each would be
// laid out byte by byte as any of the four.
#[inline(never)]
fn read_version<'a, V: OneVersion>(
    text: &'a [u8],
    components: &'a [u8],
    minor_version: usize,
) -> Result<Cvss, Rejection<'a>>
    requires { IsRouted V.has_minor V.route V.front text.now components.now minor_version }
    ensures { IsRead text.now result }
{
    let mut vector = V::without_metrics(minor_version);
    V::reads_by_its_rules(text, components, minor_version, vector);
    match read_text(components, &mut vector) {
        Ok(()) => Ok(vector.join(minor_version)),
        Err(fault) => Err(Rejection::of_version::<V>(fault)),
    }
}

/// Why a text that says no version is rejected.
pub(crate) fn unread<'a>(text: &'a [u8], why: NoVersion<'a>) -> Rejection<'a>
    requires route { route_of text.now ≡ ToNoVersion (why_of why) }
    requires printable { IsUtf8 text.now → is_reported.IsPrintable why }
    ensures { IsRead text.now (Err result) }
{
    Rejection::without_version(why)
}

/// The error of bytes that are rejected so: that they are no text, or that of the reason.
pub(crate) fn bytes_error_of(alloc: Global, text: &[u8], rejection: Rejection<'_>) -> BytesError
    requires { IsUtf8 text.now → IsReportable rejection }
    ensures { IsRejectedAs text.now (rejection_of rejection.entry) result }
{
    match str::from_utf8(text) {
        Ok(_) => BytesError::Invalid(error_of(alloc, rejection)),
        Err(_) => BytesError::NotUtf8,
    }
}

/// The error of bytes that are rejected so, without copying.
pub(crate) fn read_error_of<'a>(text: &'a [u8], rejection: Rejection<'a>) -> ReadError<'a>
    ensures { IsReadErrorFor text.now (rejection_of rejection.entry) result }
{
    if is_utf8(text) {
        ReadError::Invalid(rejection)
    } else {
        ReadError::NotUtf8
    }
}

/// Whether bytes are UTF-8. Most are ASCII, which is seen sooner.
// A call of its own keeps the search out of the frame of an accepted line.
#[inline(never)]
fn is_utf8(bytes: &[u8]) -> bool
    ensures { IsTrue result ↔ IsUtf8 bytes.now }
{
    bytes.is_ascii() || str::from_utf8(bytes).is_ok()
}
