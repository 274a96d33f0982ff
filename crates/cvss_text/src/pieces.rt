//! How the text of a vector is cut into pieces, and a component into its name and its value.

ghost use Rattle.std.specs.Prelude.{◌≡◌, ◌↔◌, ◌∷◌, [], IsTrue, IfSome, MatchOption, Some, length, ◌==◌, position};
ghost use Rattle.cvss_base.specs.Text.{IsComponent, pieces};
ghost use Rattle.cvss_text.specs.private.Pieces.{pieces_left, AreParts, IsAfterComponent, IsWithoutColon};
ghost use Rattle.cvss_base.specs.Rejection.{AreComponentsBefore, IsFirstBadPiece, piece_at};

/// The pieces of a text, cut at each slash.
#[derive(Clone, Copy)]
pub struct Pieces<'a> {
    rest: Option<&'a [u8]>,
}

impl<'a> Pieces<'a> {
    /// No pieces.
    #[inline(always)]
    pub(crate) fn none() -> Pieces<'a>
        ensures { pieces_left result ≡ [] }
    {
        Pieces { rest: None }
    }

    /// The text that the pieces left are cut from, if there are some.
    #[inline(always)]
    pub(crate) fn text(&self) -> Option<&'a [u8]>
        ensures { MatchOption result (pieces_left self.now ≡ [])
            (λ text. pieces_left self.now ≡ pieces text.now) }
    {
        self.rest
    }
}

/// The first piece of a text, and those after it.
pub fn front_of(text: &[u8]) -> (&[u8], Pieces<'_>)
    ensures { pieces text.now ≡ result.0.now ∷ pieces_left result.1 }
{
    match text {
        // Most values are one letter.
        [first, b'/', rest @ ..] if *first != b'/' => (&text[..1], pieces_of(rest)),
        _ => cut_at_slash(text),
    }
}

/// The same, by a search for the slash.
#[tactic(auto, using(crate::proofs::PieceLemmas::cuts))]
fn cut_at_slash(text: &[u8]) -> (&[u8], Pieces<'_>)
    ensures { pieces text.now ≡ result.0.now ∷ pieces_left result.1 }
{
    let end = first_index(text, b'/').unwrap_or(text.len());
    let rest = text.get(end + 1..);
    (&text[..end], Pieces { rest })
}

/// The pieces of a text.
pub fn pieces_of(text: &[u8]) -> Pieces<'_>
    ensures { pieces_left result ≡ pieces text.now }
{
    Pieces { rest: Some(text) }
}

/// The index of the first byte with this value.
fn first_index(text: &[u8], value: u8) -> Option<usize>
    ensures { result ≡ position (λ byte. byte == value) text.now }
{
    text.iter().position(|byte| *byte == value)
}

/// Whether the piece has exactly one colon.
pub fn is_component(piece: &[u8]) -> bool
    ensures { IsTrue result ↔ IsComponent piece.now }
{
    piece.iter().filter(|byte| **byte == b':').count() == 1
}

/// The first piece of a text that is no component.
#[tactic(auto, using(crate::proofs::PieceLemmas::after_components))]
#[inline(always)]
pub fn first_bad_piece(text: &[u8]) -> Option<&[u8]>
    ensures { MatchOption result (AreComponentsBefore (pieces text.now) (length (pieces text.now)))
        (λ piece. IsFirstBadPiece (pieces text.now) piece.now) }
{
    let mut left = pieces_of(text);
    while let Some(rest) = left.text() {
        match after_component(rest) {
            Some(after) => left = after,
            None => return Some(front_of(rest).0),
        }
    }
    None
}

/// The pieces after the first piece of a text, if that is a component.
#[inline(always)]
fn after_component(text: &[u8]) -> Option<Pieces<'_>>
    ensures { MatchOption result (¬ (IsComponent (piece_at (pieces text.now) 0)))
        (λ left. IsAfterComponent (pieces text.now) (pieces_left left)) }
{
    // Most are letters, which are above both delimiters.
    if let Some(rest) = after_two_letters(text) {
        return Some(pieces_of(rest));
    }
    if let Some(rest) = after_one_letter(text) {
        return Some(pieces_of(rest));
    }
    if let Some(rest) = after_three_letters(text) {
        return Some(pieces_of(rest));
    }
    after_any_component(text)
}

/// What follows a component with a name of one letter, and a slash.
#[inline(always)]
fn after_one_letter(text: &[u8]) -> Option<&[u8]>
    ensures { IfSome result (λ rest. IsAfterComponent (pieces text.now) (pieces rest.now)) }
{
    match text {
        [(b'A'..), b':', (b'A'..), b'/', rest @ ..] => Some(rest),
        _ => None,
    }
}

#[inline(always)]
fn after_two_letters(text: &[u8]) -> Option<&[u8]>
    ensures { IfSome result (λ rest. IsAfterComponent (pieces text.now) (pieces rest.now)) }
{
    match text {
        [(b'A'..), (b'A'..), b':', (b'A'..), b'/', rest @ ..] => Some(rest),
        _ => None,
    }
}

#[inline(always)]
fn after_three_letters(text: &[u8]) -> Option<&[u8]>
    ensures { IfSome result (λ rest. IsAfterComponent (pieces text.now) (pieces rest.now)) }
{
    match text {
        [(b'A'..), rest @ ..] => after_two_letters(rest),
        _ => None,
    }
}

/// The same, by a search for the slash.
fn after_any_component(text: &[u8]) -> Option<Pieces<'_>>
    ensures { MatchOption result (¬ (IsComponent (piece_at (pieces text.now) 0)))
        (λ left. IsAfterComponent (pieces text.now) (pieces_left left)) }
{
    let (piece, left) = front_of(text);
    if is_component(piece) {
        Some(left)
    } else {
        None
    }
}

/// The texts before and after the first colon of a piece.
#[tactic(auto, using(crate::proofs::PieceLemmas::cuts))]
pub fn parts_of(piece: &[u8]) -> Option<(&[u8], &[u8])>
    ensures { MatchOption result (IsWithoutColon piece.now)
        (λ parts. AreParts piece.now parts.0.now parts.1.now) }
{
    let at = first_index(piece, b':')?;
    Some((&piece[..at], &piece[at + 1..]))
}
