//! Texts that are read one after another: the components of a list, or those that one text joins.

ghost use Rattle.std.specs.Prelude.{◌≡◌, ◌∷◌, [], ℕ, List, IfSome, MatchOption, IsUtf8, length, map, ⊤};
ghost use Rattle.cvss_text.specs.Setting.{components_in};
ghost use Rattle.cvss_text.specs.private.Pieces.{pieces_left};

use crate::pieces::{Pieces, front_of, pieces_of};

/// Texts that are read one after another.
pub trait Texts<'a>: Copy {
    ghost texts: { Self → List (List ℕ) };

    /// Whether the type says that they are UTF-8.
    ghost are_utf8: { Type 0 };

    /// The first text, and those after it.
    fn first_text(self) -> Option<(&'a [u8], Self)>
        ensures cut { MatchOption result (texts self ≡ [])
            (λ cut. texts self ≡ cut.0.now ∷ texts cut.1) }
        ensures utf8 { are_utf8 → IfSome result (λ cut. IsUtf8 cut.0.now) };

    /// How many texts there are.
    fn count(self) -> usize
        ensures { result ≡ length (texts self) };
}

impl<'a, 'b> Texts<'a> for &'b [&'a str] {
    ghost texts = { λ list. map (λ text. text.now) list.now };

    ghost are_utf8 = { ⊤ };

    fn first_text(self) -> Option<(&'a [u8], Self)> {
        match self {
            [first, rest @ ..] => Some((first.as_bytes(), rest)),
            [] => None,
        }
    }

    fn count(self) -> usize {
        self.len()
    }
}

impl<'a> Texts<'a> for Pieces<'a> {
    ghost texts = { pieces_left };

    ghost are_utf8 = { ⊥ };

    fn first_text(self) -> Option<(&'a [u8], Self)> {
        Some(front_of(self.text()?))
    }

    #[tactic(auto, using(crate::proofs::PieceLemmas::piece_count))]
    fn count(self) -> usize {
        match self.text() {
            Some(text) => text.iter().filter(|byte| **byte == b'/').count() + 1,
            None => 0,
        }
    }
}

/// The components that a text joins by slashes; an empty text has none.
pub fn components_of(text: &[u8]) -> Pieces<'_>
    ensures { pieces_left result ≡ components_in text.now }
{
    match text {
        [] => Pieces::none(),
        _ => pieces_of(text),
    }
}
