//! The pieces of a text, and where they are in another.

ghost use Rattle.std.specs.Prelude.{◌≡◌, ◌∷◌, ◌==◌, position};
ghost use Rattle.cvss_base.specs.Text.{name_part, pieces};
ghost use Rattle.cvss_lists.specs.Departures.{is_in, those_after};
ghost use Rattle.cvss_lists.specs.private.Cutting.{pieces_after};

/// The first piece of a text, and what follows the slash after it, if there is one.
#[tactic(auto, using(cvss_text::proofs::PieceLemmas::cuts))]
pub(crate) fn cut(text: &[u8]) -> (&[u8], Option<&[u8]>)
    ensures { pieces text.now ≡ result.0.now ∷ pieces_after result.1 }
{
    let end = first_index(text, b'/').unwrap_or(text.len());
    (&text[..end], text.get(end + 1..))
}

/// The index of the first byte with this value.
fn first_index(text: &[u8], value: u8) -> Option<usize>
    ensures { result ≡ position (λ byte. byte == value) text.now }
{
    text.iter().position(|byte| *byte == value)
}

/// The name in a component.
#[tactic(auto, using(crate::proofs::CuttingLemmas::name_cut))]
pub(crate) fn name_of(piece: &[u8]) -> &[u8]
    ensures { result.now ≡ name_part piece.now }
{
    let end = first_index(piece, b':').unwrap_or(piece.len());
    &piece[..end]
}

/// Whether a piece is one of those of a text, if there is one.
pub(crate) fn is_in(piece: &[u8], text: Option<&[u8]>) -> bool
    ensures { result ≡ is_in piece.now (pieces_after text.entry) }
{
    let mut left = text;
    while let Some(rest) = left {
        let (each, after) = cut(rest);
        if each == piece {
            return true;
        }
        left = after;
    }
    false
}

/// What follows a piece in a text, if there is something.
pub(crate) fn rest_after<'a>(piece: &[u8], text: &'a [u8]) -> Option<&'a [u8]>
    ensures { pieces_after result ≡ those_after piece.now (pieces text.now) }
{
    let mut left = Some(text);
    while let Some(rest) = left {
        let (each, after) = cut(rest);
        if each == piece {
            return after;
        }
        left = after;
    }
    None
}
