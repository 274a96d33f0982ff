//! How a piece is cut after the name of a metric, where it is as long as a name.

ghost use Rattle.std.specs.Prelude.{◌≡◌, ◌∷◌, [], ◌++◌, IfSome};
ghost use Rattle.cvss_base.specs.Text.{colon};
ghost use Rattle.cvss_base.specs.V2Types.{name_of};

use cvss_metric::v2::MetricType;

/// The metric with whose name and a colon a piece begins, and what follows these.
#[inline(always)]
pub(super) fn cut_named(piece: &[u8]) -> Option<(MetricType, &[u8])>
    ensures { IfSome result (λ cut. piece.now ≡ name_of cut.0 ++ (colon ∷ cut.1.now)) }
{
    match piece {
        [first, b':', value @ ..] => Some((one_letter(*first)?, value)),
        [first, second, b':', value @ ..] => Some((two_letters(*first, *second)?, value)),
        [b'C', b'D', b'P', b':', value @ ..] => Some((MetricType::CDP, value)),
        _ => None,
    }
}

/// The metric with a name of two letters.
#[inline(always)]
fn two_letters(first: u8, second: u8) -> Option<MetricType>
    ensures { IfSome result (λ kind. name_of kind ≡ first ∷ second ∷ []) }
{
    match (first, second) {
        (b'A', b'V') => Some(MetricType::AV),
        (b'A', b'C') => Some(MetricType::AC),
        (b'A', b'u') => Some(MetricType::Au),
        (b'R', b'L') => Some(MetricType::RL),
        (b'R', b'C') => Some(MetricType::RC),
        (b'T', b'D') => Some(MetricType::TD),
        (b'C', b'R') => Some(MetricType::CR),
        (b'I', b'R') => Some(MetricType::IR),
        (b'A', b'R') => Some(MetricType::AR),
        _ => None,
    }
}

/// The metric with a name of one letter.
#[inline(always)]
fn one_letter(first: u8) -> Option<MetricType>
    ensures { IfSome result (λ kind. name_of kind ≡ first ∷ []) }
{
    match first {
        b'C' => Some(MetricType::C),
        b'I' => Some(MetricType::I),
        b'A' => Some(MetricType::A),
        b'E' => Some(MetricType::E),
        _ => None,
    }
}
