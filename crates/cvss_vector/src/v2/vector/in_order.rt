//! How the values of a metric, of one to three letters, are read in a text whose components are in printing
//! order.

ghost use Rattle.std.specs.Prelude.{◌≡◌, IfSome, ◌++◌};
ghost use Rattle.cvss_base.specs.V2Types.{name_of};
ghost use Rattle.cvss_text.specs.private.Values.{shown};
ghost use Rattle.cvss_metric.specs.v2.Table.{spelling_of};

use crate::v2::vector::Vector;
use cvss_metric::v2::MetricValue;
use cvss_text::fast_path::{put_read, rest_after_name};
use cvss_text::values::letter_in_order;

/// Puts the value of a metric into its field, if a text begins with a slash and its component, and
/// gives what follows that; else no value, and the text.
#[inline(always)]
pub(super) fn put_value<'a, M: MetricValue>(field: &mut Option<M>, text: &'a [u8]) -> &'a [u8]
    ensures { text.now ≡ shown (name_of M.KIND) (λ value. spelling_of M.KIND (M.value value)) field.new
        ++ result.now }
{
    let read = match rest_after_name(M::KIND.name(), text) {
        Some(value) => value_in_order(value),
        None => None,
    };
    put_read(field, read, text)
}

/// The value of a metric, where a text begins with its spelling up to a slash, and what is
/// after that. No spelling has more than three letters.
#[inline(always)]
fn value_in_order<M: MetricValue>(text: &[u8]) -> Option<(M, &[u8])>
    ensures { IfSome result
        (λ read. text.now ≡ spelling_of M.KIND (M.value read.0) ++ read.1.now) }
{
    let (value, rest) = match text {
        [] | [_] | [_, b'/', ..] => return letter_in_order::<Vector, M>(text),
        [_, _] | [_, _, b'/', ..] => text.split_at(2),
        [_, _, _, ..] => text.split_at(3),
    };
    Some((M::read_bytes(value)?, rest))
}
