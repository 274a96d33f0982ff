//! The metrics by their names in any ASCII case, for pieces that are cut after a name.

ghost use Rattle.std.specs.Prelude.{◌≡◌, ◌∷◌, [], IfSome};
ghost use Rattle.cvss_base.specs.Text.{uppercased};
ghost use Rattle.cvss_base.specs.V3Types.{name_of};

use cvss_metric::v3::MetricType;

/// The metric whose name is this letter, in any ASCII case, as in the functions below.
#[inline(always)]
pub(super) fn named_by_one(letter: u8) -> Option<MetricType>
    ensures { IfSome result (λ kind. name_of kind ≡ uppercased (letter ∷ [])) }
{
    match letter {
        b'S' | b's' => Some(MetricType::S),
        b'C' | b'c' => Some(MetricType::C),
        b'I' | b'i' => Some(MetricType::I),
        b'A' | b'a' => Some(MetricType::A),
        b'E' | b'e' => Some(MetricType::E),
        _ => None,
    }
}

/// The metric whose name is these two letters.
#[inline(always)]
pub(super) fn named_by_two(first: u8, second: u8) -> Option<MetricType>
    ensures { IfSome result (λ kind. name_of kind ≡ uppercased (first ∷ second ∷ [])) }
{
    match first {
        b'A' | b'a' => match second {
            b'V' | b'v' => Some(MetricType::AV),
            b'C' | b'c' => Some(MetricType::AC),
            b'R' | b'r' => Some(MetricType::AR),
            _ => None,
        },
        b'R' | b'r' => match second {
            b'L' | b'l' => Some(MetricType::RL),
            b'C' | b'c' => Some(MetricType::RC),
            _ => None,
        },
        b'M' | b'm' => match second {
            b'S' | b's' => Some(MetricType::MS),
            b'C' | b'c' => Some(MetricType::MC),
            b'I' | b'i' => Some(MetricType::MI),
            b'A' | b'a' => Some(MetricType::MA),
            _ => None,
        },
        b'P' | b'p' if matches!(second, b'R' | b'r') => Some(MetricType::PR),
        b'U' | b'u' if matches!(second, b'I' | b'i') => Some(MetricType::UI),
        b'C' | b'c' if matches!(second, b'R' | b'r') => Some(MetricType::CR),
        b'I' | b'i' if matches!(second, b'R' | b'r') => Some(MetricType::IR),
        _ => None,
    }
}

/// The metric whose name is these three letters, which is a modified one.
#[inline(always)]
pub(super) fn named_by_three(first: u8, second: u8, third: u8) -> Option<MetricType>
    ensures { IfSome result (λ kind. name_of kind ≡ uppercased (first ∷ second ∷ third ∷ [])) }
{
    match (first, second, third) {
        (b'M' | b'm', b'A' | b'a', b'V' | b'v') => Some(MetricType::MAV),
        (b'M' | b'm', b'A' | b'a', b'C' | b'c') => Some(MetricType::MAC),
        (b'M' | b'm', b'P' | b'p', b'R' | b'r') => Some(MetricType::MPR),
        (b'M' | b'm', b'U' | b'u', b'I' | b'i') => Some(MetricType::MUI),
        _ => None,
    }
}
