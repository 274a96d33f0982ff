//! How a component is cut into the metric that it names and the value after its colon, once for all
//! versions.

ghost use Rattle.std.specs.Prelude.{◌≡◌, bytes_eq, find, IfOk, IfErr, All, IsUtf8};
ghost use Rattle.cvss_text.specs.private.Pieces.{pieces_left};
ghost use Rattle.cvss_base.specs.Text.{IsComponent, pieces, read_as};
ghost use Rattle.cvss_base.specs.Version.{read};
ghost use Rattle.cvss_base.specs.Rejection.{piece_at};
ghost use Rattle.cvss_text.specs.private.Walk.{IsCutAnswer, IsCutFirst, IsFaultOf, IsPrintable, reason_of};

use crate::pieces::{Pieces, front_of, parts_of};
use crate::walk::{Components, Fault};
use cvss_base::component::is_uppercased_as;

/// The metric with this name.
fn kind_named<V: Components>(name: &[u8]) -> Option<V::Kind>
    ensures { result ≡ find (λ kind. bytes_eq (read V.version name.now) (V.version.name kind))
        V.version.printed }
{
    V::printed().iter().copied().find(|kind| is_read_as(
        V::any_case(),
        name,
        V::name(*kind).as_bytes(),
    ))
}

/// The metric that a piece names, and the value after its colon.
pub fn cut_component<'a, V: Components>(
    piece: &'a [u8],
) -> Result<(V::Kind, &'a [u8]), Fault<'a, V::Kind>>
    ensures { IsCutAnswer V.version piece.now result }
{
    match V::cut(piece) {
        Some(cut) => Ok(cut),
        None => cut_at_colon::<V>(piece),
    }
}

/// The metric that a piece names, and the value after its colon, by a search for the colon.
fn cut_at_colon<'a, V: Components>(
    piece: &'a [u8],
) -> Result<(V::Kind, &'a [u8]), Fault<'a, V::Kind>>
    ensures { IsCutAnswer V.version piece.now result }
{
    let Some((name, value)) = parts_of(piece) else {
        return Err(Fault::InvalidComponent(piece));
    };
    match kind_named::<V>(name) {
        Some(kind) => Ok((kind, value)),
        None => Err(Fault::UnknownMetric(name)),
    }
}

/// The metric that the first piece of a text names, the value after its colon, and the pieces after
/// that. The end of the piece is sought after the colon, since no name has a slash.
#[inline(always)]
pub(crate) fn cut_first<'a, V: Components>(
    text: &'a [u8],
) -> Result<(V::Kind, &'a [u8], Pieces<'a>), Fault<'a, V::Kind>>
    ensures cut { IfOk result (λ cut.
        IsCutFirst V.version text.now cut.0 cut.1.now (pieces_left cut.2)) }
    ensures rejected { IfErr result (λ fault. (v : V) → IsComponent (piece_at (pieces text.now) 0)
        → IsFaultOf V.version v (piece_at (pieces text.now) 0) (reason_of V.version fault)) }
    ensures printable { All IsUtf8 (pieces text.now) → IfErr result (IsPrintable V.version) }
{
    if let Some(cut) = V::cut(text) {
        let (value, left) = front_of(cut.1);
        return Ok((cut.0, value, left));
    }
    let (piece, left) = front_of(text);
    let (kind, value) = cut_at_colon::<V>(piece)?;
    Ok((kind, value, left))
}

/// Whether a text is read as this name.
#[tactic(auto, using(cvss_base::proofs::EqualityLemmas::bytes_eq_when))]
fn is_read_as(any_case: bool, text: &[u8], name: &[u8]) -> bool
    ensures { result ≡ bytes_eq (read_as any_case text.now) name.now }
{
    if any_case {
        is_uppercased_as(text, name)
    } else {
        text == name
    }
}
