//! The values of one metric, as they are read and printed in components, once for all versions.

ghost use Rattle.std.specs.Prelude.{◌≡◌, ◌≤◌, ◌+◌, ◌++◌, ◌∷◌, [], ℕ, Bool, List, IfSome, length};
ghost use Rattle.cvss_base.specs.Text.{component, read_as, slash};
ghost use Rattle.cvss_text.specs.private.Values.{shown};
ghost use Rattle.cvss_text.specs.private.Walk.{IsFilled};

use crate::buffer::TextBuffer;
use crate::fast_path::{put_read, rest_after_name};
use crate::walk::ComponentError;

/// A version, as it spells the values of one of its metrics.
pub trait Spells<M: Copy> {
    ghost any_case: { Bool };

    ghost metric: { List ℕ };

    ghost spelling: { M → List ℕ };

    /// At most so many bytes have a slash and a component of the metric.
    ghost width: { ℕ };

    /// The metric's name.
    fn metric() -> &'static str
        ensures name { result.now ≡ metric }
        ensures least { 1 ≤ length result.now }
        ensures most { length result.now ≤ 3 };

    /// How the value is spelled in a vector.
    fn spelling(value: M) -> &'static str
        ensures text { result.now ≡ spelling value }
        ensures most { length metric + length result.now ≤ 6 }
        ensures width { length metric + length result.now + 2 ≤ width };

    /// The value with this spelling, as the version reads it.
    fn spelled(text: &[u8]) -> Option<M>
        ensures spelled { IfSome result
            (λ value. read_as any_case (spelling value) ≡ read_as any_case text.now) }
        ensures read { (value : M) → read_as any_case (spelling value) ≡ read_as any_case text.now
            → result ≡ Some value };

    /// The value that this letter spells, exactly as it is written. It may be `None` for any letter.
    fn by_letter(letter: u8) -> Option<M>
        ensures { IfSome result (λ value. spelling value ≡ letter ∷ []) };
}

/// Reads a value into its field, which has to be empty.
#[inline(always)]
pub fn fill<V: Spells<M>, M: Copy>(field: &mut Option<M>, text: &[u8]) -> Result<(), ComponentError>
    ensures { IsFilled (λ x. read_as V.any_case (V.spelling x)) field.old (read_as V.any_case text.now)
        result field.new }
{
    let Some(value) = V::spelled(text) else {
        return Err(ComponentError::Invalid);
    };
    if field.is_some() {
        return Err(ComponentError::Repeated);
    }
    *field = Some(value);
    Ok(())
}

/// Puts the value of a metric into its field, if a text begins with a slash and its component, and
/// gives what follows that; else no value, and the text.
#[inline(always)]
pub fn put_value<'a, V: Spells<M>, M: Copy>(field: &mut Option<M>, text: &'a [u8]) -> &'a [u8]
    ensures { text.now ≡ shown V.metric V.spelling field.new ++ result.now }
{
    put_read(field, component_in_order::<V, M>(text), text)
}

/// The values of two metrics, where a text begins with a slash and the component of each, and what
/// follows them.
#[inline(always)]
pub fn two_in_order<V: Spells<K> + Spells<L>, K: Copy, L: Copy>(
    text: &[u8],
) -> Option<(K, L, &[u8])>
    ensures { IfSome result (λ read. text.now
        ≡ slash ∷ (component ⟦<V as Spells<K>>⟧.metric (⟦<V as Spells<K>>⟧.spelling read.0)
        ++ (slash ∷ (component ⟦<V as Spells<L>>⟧.metric (⟦<V as Spells<L>>⟧.spelling read.1)
        ++ read.2.now)))) }
{
    let (first, text) = component_in_order::<V, K>(text)?;
    let (second, text) = component_in_order::<V, L>(text)?;
    Some((first, second, text))
}

/// The value of a metric that a letter spells, where a text begins with a slash and its component, and
/// what is after that.
#[inline(always)]
pub fn component_in_order<V: Spells<M>, M: Copy>(text: &[u8]) -> Option<(M, &[u8])>
    ensures { IfSome result
        (λ read. text.now ≡ slash ∷ (component V.metric (V.spelling read.0) ++ read.1.now)) }
{
    letter_in_order::<V, M>(rest_after_name(V::metric(), text)?)
}

/// The value of a metric, where a text begins with the letter that spells it, and what follows that.
#[inline(always)]
pub fn letter_in_order<V: Spells<M>, M: Copy>(text: &[u8]) -> Option<(M, &[u8])>
    ensures { IfSome result (λ read. text.now ≡ V.spelling read.0 ++ read.1.now) }
{
    match text {
        [letter, rest @ ..] => Some((V::by_letter(*letter)?, rest)),
        [] => None,
    }
}

/// Appends a slash and the component of a value, if there is one.
#[inline(always)]
pub fn write_value<V: Spells<M>, M: Copy>(value: Option<M>, buffer: &mut TextBuffer)
    requires { length buffer.old ≤ 200 }
    ensures text { buffer.new ≡ buffer.old ++ shown V.metric V.spelling value }
    ensures room { length buffer.new ≤ length buffer.old + 8 }
    ensures width { length buffer.new ≤ length buffer.old + V.width }
{
    if let Some(value) = value {
        buffer.push_component(V::metric(), V::spelling(value));
    }
}
