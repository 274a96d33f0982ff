//! How metrics are set in a vector, and how a vector is built from metrics alone, once for all
//! versions. It takes no memory: a fault borrows the part of the text that it names.

ghost use Rattle.std.specs.Prelude.{◌≡◌, ◌≤◌, IfOk, IfErr, OnOk, Some, length, IsUtf8};
ghost use Rattle.cvss_base.specs.Text.{pieces};
ghost use Rattle.cvss_base.specs.Version.{AreComponentsOf};
ghost use Rattle.cvss_text.specs.Setting.{IsBuildReason, IsBuilt, IsFirstWrong, IsSet, IsSetReason, components_in};
ghost use Rattle.cvss_text.specs.private.SettingSteps.{IsAnswered, IsCopied, IsWrongFor, kept};
ghost use Rattle.cvss_text.specs.private.Walk.{Adds, HasNoValue, IsPrintable, reason_of};
ghost use Rattle.std.specs.Option.{option_copied, option_or};

use crate::pieces::{is_component, pieces_of};
use crate::print::Printed;
use crate::texts::{Texts, components_of};
use crate::walk::{Components, Fault, read_component};

/// The vector with components set, which a text joins by slashes, in any order; or else the index of
/// the first with which something is wrong, and what. A vector without values is given, whose front is
/// that of the vector.
pub fn set<'a, V: Printed>(
    vector: &V,
    empty: V,
    text: &'a str,
) -> Result<V, (Option<usize>, Fault<'a, V::Kind>)>
    requires valueless { HasNoValue V.version empty }
    requires front { V.version.front empty ≡ V.version.front vector.now }
    ensures { IsAnswered V.version (IsSet V.version vector.now (components_in text.now))
        (IsSetReason V.version (components_in text.now)) result }
{
    match read_given(components_of(text.as_bytes()), empty) {
        Ok(given) => Ok(completed(given, vector, None)),
        Err((index, fault)) => Err((Some(index), fault)),
    }
}

/// The vector that components make, which a text joins by slashes, in any order; or else the index of
/// the first with which something is wrong, and what; or else the first mandatory metric that none
/// names. A vector without values is given, whose front the vector has.
pub fn build<'a, V: Components>(
    empty: V,
    text: &'a str,
) -> Result<V, (Option<usize>, Fault<'a, V::Kind>)>
    requires { HasNoValue V.version empty }
    ensures { IsAnswered V.version (IsBuilt V.version (V.version.front empty) (pieces text.now))
        (IsBuildReason V.version (pieces text.now)) result }
{
    match read_given(pieces_of(text.as_bytes()), empty) {
        Ok(given) => match given.first_missing() {
            Some(kind) => Err((None, Fault::MissingMandatoryMetric(kind))),
            None => Ok(given),
        },
        Err((index, fault)) => Err((Some(index), fault)),
    }
}

/// Reads components into a vector without values; or else the index of the first with which something
/// is wrong, and what.
pub fn read_given<'a, V: Components, T: Texts<'a>>(
    texts: T,
    empty: V,
) -> Result<V, (usize, Fault<'a, V::Kind>)>
    requires { HasNoValue V.version empty }
    ensures components { IfOk result (AreComponentsOf V.version (T.texts texts)) }
    ensures front { IfOk result (λ given. V.version.front given ≡ V.version.front empty) }
    ensures rejected { IfErr result (λ rejected. IsFirstWrong V.version (T.texts texts) rejected.0
        (reason_of V.version rejected.1)) }
    ensures bound { IfErr result (λ rejected. rejected.0 ≤ length V.version.printed) }
    ensures printable { T.are_utf8 → IfErr result (λ rejected. IsPrintable V.version rejected.1) }
{
    let mut given = empty;
    let mut left = texts;
    while let Some(cut) = left.first_text() {
        let (text, after) = cut;
        if let Err(fault) = read_one(text, &mut given) {
            return Err((texts.count() - left.count(), fault));
        }
        left = after;
    }
    Ok(given)
}

/// Reads one component into the vector that holds those before it.
fn read_one<'a, V: Components>(piece: &'a [u8], given: &mut V) -> Result<(), Fault<'a, V::Kind>>
    ensures read { OnOk result (Adds V.version given.old piece.now given.new) }
    ensures rejected { IfErr result
        (λ fault. IsWrongFor V.version given.old piece.now (reason_of V.version fault)) }
    ensures printable { IsUtf8 piece.now → IfErr result (IsPrintable V.version) }
{
    if !is_component(piece) {
        return Err(Fault::InvalidComponent(piece));
    }
    read_component(piece, given)
}

/// The given vector with the values of another for all metrics for which it has none, but those that
/// are spelled as what is left out, if something is.
pub fn completed<V: Printed>(given: V, own: &V, left_out: Option<&[u8]>) -> V
    ensures values { (kind : V.Kind) → V.version.value_of result kind
        ≡ option_or (V.version.value_of given kind)
        (kept V.version (option_copied left_out.entry) own.now kind) }
    ensures front { V.version.front result ≡ V.version.front given }
{
    let mut vector = given;
    for kind in V::printed() {
        copy_value(own, *kind, left_out, &mut vector);
    }
    vector
}

/// Copies the value of a vector for a metric into another that has none, unless it is left out.
fn copy_value<V: Printed>(own: &V, kind: V::Kind, left_out: Option<&[u8]>, vector: &mut V)
    ensures { IsCopied V.version kind (kept V.version (option_copied left_out.entry) own.now kind)
        vector.old vector.new }
{
    match own.spelling(kind) {
        Some(spelling)
            if Some(spelling.as_bytes()) != left_out && vector.spelling(kind).is_none() => {
            // The metric has this value, and the vector has none.
            let _ = vector.put::<u8>(kind, spelling.as_bytes());
        }
        _ => {}
    }
}
