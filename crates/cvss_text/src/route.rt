//! By the rules of which version a text is read.

ghost use Rattle.std.specs.Prelude.{◌≡◌, ◌∷◌, ◌++◌, ℕ, List, IfSome, codes, true, IsUtf8};
ghost use Rattle.cvss_base.specs.Text.{component, dot, has, pieces, slash};
ghost use Rattle.cvss_base.specs.Version.{version_piece};
ghost use Rattle.cvss_text.specs.Route.{ToV20, route_of, route_of_parts};
ghost use Rattle.cvss_text.specs.private.Routing.{IsAfterVersion, IsPrintableRoute, as_route};

use crate::fast_path::{after_four, are_four};
use crate::pieces::{front_of, parts_of};
use cvss_base::PREFIX;

/// By the rules of which version a text is read.
#[derive(Drop)]
pub enum Route<'a> {
    /// All of the text is read.
    V20,
    /// Each of these with the text of the components, after the piece that says the version.
    V30(&'a [u8]),
    V31(&'a [u8]),
    V40(&'a [u8]),
    /// No version is reported, so no rules apply.
    Unversioned(NoVersion<'a>),
}

/// Why a text is read by no rules, with the part of the text that is at fault.
#[derive(Drop)]
pub enum NoVersion<'a> {
    /// The text has one piece, or its first piece has no colon.
    InvalidComponent(&'a [u8]),
    /// A version is reported, but not after `CVSS`.
    InvalidPrefix(&'a [u8]),
    /// The version that is reported is not supported.
    UnsupportedVersion(&'a [u8]),
}

/// By the rules of which version a text is read: the first of its pieces says it, and it has two at
/// least. It takes no memory.
#[inline(always)]
pub fn route_of_text(text: &[u8]) -> Route<'_>
    ensures route { as_route result ≡ route_of text.now }
    ensures after { IsAfterVersion (pieces text.now) result }
    ensures printable { IsUtf8 text.now → IsPrintableRoute result }
{
    match route_at_once(text) {
        Some(route) => route,
        None => route_by_front(text),
    }
}

/// The same, where that is seen in the first bytes: `None` says nothing of the text.
#[inline(always)]
pub fn route_at_once(text: &[u8]) -> Option<Route<'_>>
    ensures route { IfSome result (λ route. as_route route ≡ route_of text.now) }
    ensures after { IfSome result (IsAfterVersion (pieces text.now)) }
    ensures printable { IfSome result IsPrintableRoute }
{
    match after_four(text, *b"CVSS") {
        Some(rest) => route_after_prefix(rest),
        None => match after_short_component(text) {
            Some(_) => Some(Route::V20),
            None => None,
        },
    }
}

/// The same of a text that begins with `CVSS`, from what follows that.
#[inline(always)]
fn route_after_prefix(rest: &[u8]) -> Option<Route<'_>>
    ensures route { (text : List ℕ) → text ≡ codes "CVSS" ++ rest.now
        → IfSome result (λ route. as_route route ≡ route_of text) }
    ensures after { (text : List ℕ) → text ≡ codes "CVSS" ++ rest.now
        → IfSome result (IsAfterVersion (pieces text)) }
    ensures printable { IfSome result IsPrintableRoute }
{
    let (version, components) = cut_after_four(rest)?;
    if are_four(version, *b":3.1") {
        return Some(Route::V31(components));
    }
    if are_four(version, *b":4.0") {
        return Some(Route::V40(components));
    }
    if are_four(version, *b":3.0") {
        return Some(Route::V30(components));
    }
    None
}

/// The first four bytes of a text, and what follows the slash after them.
#[inline(always)]
fn cut_after_four(text: &[u8]) -> Option<([u8; 4], &[u8])>
    ensures { IfSome result (λ cut. text.now ≡ cut.0 ++ (slash ∷ cut.1.now)) }
{
    match text {
        [a, b, c, d, b'/', rest @ ..] => Some(([*a, *b, *c, *d], rest)),
        _ => None,
    }
}

/// What follows a component with a name of two letters and a value of one, and a slash: so begin most
/// vectors of CVSS v2. `None` says nothing of the text.
#[tactic(auto, using(crate::proofs::PieceLemmas::short_routed))]
#[inline(always)]
fn after_short_component(text: &[u8]) -> Option<&[u8]>
    ensures { IfSome result (λ rest. route_of text.now ≡ ToV20) }
{
    match text {
        [(b'A'..), (b'A'..), b':', (b'A'..), b'/', rest @ ..] => Some(rest),
        _ => None,
    }
}

/// By the rules of which version a text is read, where the end of its first piece has to be sought.
#[tactic(auto, using(crate::proofs::PieceLemmas::first_utf8))]
fn route_by_front(text: &[u8]) -> Route<'_>
    ensures route { as_route result ≡ route_of text.now }
    ensures after { IsAfterVersion (pieces text.now) result }
    ensures printable { IsUtf8 text.now → IsPrintableRoute result }
{
    let (front, left) = front_of(text);
    let Some(after) = left.text() else {
        return Route::Unversioned(NoVersion::InvalidComponent(front));
    };
    match parts_of(front) {
        Some((prefix, reported)) => route_by(prefix, reported, after),
        None => Route::Unversioned(NoVersion::InvalidComponent(front)),
    }
}

/// By which rules a text is read whose first piece has this prefix and says this version.
fn route_by<'a>(prefix: &'a [u8], reported: &'a [u8], after: &'a [u8]) -> Route<'a>
    ensures route { as_route result ≡ route_of_parts prefix.now reported.now }
    ensures after { IsAfterVersion (component prefix.now reported.now ∷ pieces after.now) result }
    ensures printable { IsUtf8 prefix.now → IsUtf8 reported.now → IsPrintableRoute result }
{
    if !reported.contains(&b'.') {
        return Route::V20;
    }
    if prefix != PREFIX.as_bytes() {
        return Route::Unversioned(NoVersion::InvalidPrefix(prefix));
    }
    route_by_version(reported, after)
}

/// By which rules a text is read whose first piece has the prefix `CVSS` and says this version, which
/// has a dot.
#[inline(always)]
fn route_by_version<'a>(reported: &'a [u8], after: &'a [u8]) -> Route<'a>
    requires { has dot reported.now ≡ true }
    ensures route { as_route result ≡ route_of_parts (codes "CVSS") reported.now }
    ensures after { IsAfterVersion (version_piece reported.now ∷ pieces after.now) result }
    ensures printable { IsUtf8 reported.now → IsPrintableRoute result }
{
    if reported == "3.1".as_bytes() {
        return Route::V31(after);
    }
    if reported == "4.0".as_bytes() {
        return Route::V40(after);
    }
    if reported == "3.0".as_bytes() {
        return Route::V30(after);
    }
    Route::Unversioned(NoVersion::UnsupportedVersion(reported))
}
