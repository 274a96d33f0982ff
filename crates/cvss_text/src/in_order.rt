//! How a text whose components are in printing order is read, once for all versions.

ghost use Rattle.std.specs.Prelude.{◌≡◌, ℕ, List, IfSome, IsTrue, [], drop};
ghost use Rattle.cvss_text.specs.private.Printing.{texts_with_slash};
ghost use Rattle.cvss_text.specs.private.Walk.{HasNoValue, IsInOrderTo, IsWhole, first_missing};

use crate::walk::Components;

/// The vector with the components of a text, from one without values, if all of it is in printing order
/// and no base metric is missing; and whether it has base metrics alone, as far as that is seen. It may be
/// `None` for any text, which is then read the longer way.
#[inline(always)]
pub fn whole<V: Components>(empty: V, text: &[u8]) -> Option<(V, bool)>
    requires { HasNoValue V.version empty }
    ensures whole { IfSome result
        (λ whole. IsWhole V.version (V.version.front empty) text.now whole.0) }
    ensures base { IfSome result (λ whole. V.has_base whole.0) }
    ensures alone { IfSome result (λ whole. IsTrue whole.1
        → texts_with_slash V.version whole.0 (drop V.base_count V.version.printed) ≡ []) }
{
    let (base, rest) = empty.base_in_order::<()>(text)?;
    let [_, ..] = rest else {
        return Some((base, true));
    };
    let (vector, rest) = with_others(base, rest);
    match rest {
        [] => Some((vector, false)),
        _ => None,
    }
}

/// The vector with the components with which a text begins in printing order, from one without values,
/// and what follows them. How many these are is for speed alone.
// What was read for `whole` is read again: kept, it would cost a text that is in order more.
#[inline(never)]
pub(crate) fn begun<'a, V: Components>(empty: V, text: &'a [u8]) -> Option<(V, &'a [u8])>
    requires { HasNoValue V.version empty }
    ensures { IfSome result
        (λ begun. IsInOrderTo V.version (V.version.front empty) text.now begun.0 begun.1.now) }
{
    let (base, rest) = empty.base_in_order::<u8>(text)?;
    Some(with_others(base, rest))
}

/// The vector of the base metrics with the optional ones with which the text after them begins, and what
/// follows these.
#[inline(always)]
fn with_others<'a, V: Components>(base: V, text: &'a [u8]) -> (V, &'a [u8])
    requires { texts_with_slash V.version base (drop V.base_count V.version.printed) ≡ [] }
    ensures text { (front : List (List ℕ)) (begun : List ℕ)
        → IsInOrderTo V.version front begun base text.now
        → IsInOrderTo V.version front begun result.0 result.1.now }
    ensures missing { first_missing V.version result.0 ≡ first_missing V.version base }
    ensures has_base { V.has_base base → V.has_base result.0 }
{
    let mut vector = base;
    let rest = vector.put_others(text);
    (vector, rest)
}
