//! How the reading of a text of components begins: with those in printing order, as far as that goes.

ghost use Rattle.std.specs.Prelude.{◌≡◌, ◌∷◌, IfSome};
ghost use Rattle.cvss_base.specs.Text.{pieces, slash};
ghost use Rattle.cvss_text.specs.private.Pieces.{pieces_left};
ghost use Rattle.cvss_text.specs.private.Walk.{HasNoValue, HasReadTo, IsInOrderTo};

use crate::in_order::begun;
use crate::pieces::{Pieces, pieces_of};
use crate::walk::Components;

/// Begins to read a text of components: the vector gets those with which it begins in printing order.
/// The pieces after them are left.
#[tactic(auto, using(crate::proofs::InOrderLemmas::begun))]
#[inline(always)]
pub(crate) fn begin<'a, V: Components>(text: &'a [u8], vector: &mut V) -> Pieces<'a>
    requires { HasNoValue V.version vector.old }
    ensures read { HasReadTo V.version (pieces text.now) (pieces_left result) vector.new }
    ensures front { V.version.front vector.new ≡ V.version.front vector.old }
{
    match begun(*vector, text) {
        Some((begun, rest)) => begin_after(text, begun, rest, vector),
        None => pieces_of(text),
    }
}

/// The same after the components of a vector, with which the text begins in printing order.
#[tactic(auto, using(crate::proofs::InOrderLemmas::begun))]
#[inline(always)]
fn begin_after<'a, V: Components>(
    text: &'a [u8],
    begun: V,
    rest: &'a [u8],
    vector: &mut V,
) -> Pieces<'a>
    requires valueless { HasNoValue V.version vector.old }
    requires in_order { IsInOrderTo V.version (V.version.front vector.old) text.now begun rest.now }
    ensures read { HasReadTo V.version (pieces text.now) (pieces_left result) vector.new }
    ensures front { V.version.front vector.new ≡ V.version.front vector.old }
{
    if rest.is_empty() {
        *vector = begun;
        return Pieces::none();
    }
    match after_slash(rest) {
        Some(left) => {
            *vector = begun;
            pieces_of(left)
        }
        // What was read does not end where a component does.
        None => pieces_of(text),
    }
}

/// What follows the slash with which a text begins.
#[inline(always)]
fn after_slash(text: &[u8]) -> Option<&[u8]>
    ensures { IfSome result (λ rest. text.now ≡ slash ∷ rest.now) }
{
    match text {
        [b'/', rest @ ..] => Some(rest),
        _ => None,
    }
}
