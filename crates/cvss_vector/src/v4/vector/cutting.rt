//! The metrics by their names in any ASCII case, for pieces that are cut after a name.

ghost use Rattle.std.specs.Prelude.{◌≡◌, IfSome, [], ◌∷◌, ◌++◌, codes};
ghost use Rattle.cvss_base.specs.Text.{uppercased};
ghost use Rattle.cvss_base.specs.V4Types.{name_of};

use cvss_metric::v4::MetricType;

/// The metric whose name is this letter, in any ASCII case, as in the functions below.
#[inline(always)]
pub(super) fn named_by_one(letter: u8) -> Option<MetricType>
    ensures { IfSome result (λ kind. name_of kind ≡ uppercased (letter ∷ [])) }
{
    match letter {
        b'E' | b'e' => Some(MetricType::E),
        b'S' | b's' => Some(MetricType::S),
        b'R' | b'r' => Some(MetricType::R),
        b'V' | b'v' => Some(MetricType::V),
        b'U' | b'u' => Some(MetricType::U),
        _ => None,
    }
}

/// The metric whose name is these two letters.
#[inline(always)]
pub(super) fn named_by_two(first: u8, second: u8) -> Option<MetricType>
    ensures { IfSome result (λ kind. name_of kind ≡ uppercased (first ∷ second ∷ [])) }
{
    match first {
        b'A' | b'a' => match second {
            b'V' | b'v' => Some(MetricType::AV),
            b'C' | b'c' => Some(MetricType::AC),
            b'T' | b't' => Some(MetricType::AT),
            b'R' | b'r' => Some(MetricType::AR),
            b'U' | b'u' => Some(MetricType::AU),
            _ => None,
        },
        b'V' | b'v' => match second {
            b'C' | b'c' => Some(MetricType::VC),
            b'I' | b'i' => Some(MetricType::VI),
            b'A' | b'a' => Some(MetricType::VA),
            _ => None,
        },
        b'S' | b's' => match second {
            b'C' | b'c' => Some(MetricType::SC),
            b'I' | b'i' => Some(MetricType::SI),
            b'A' | b'a' => Some(MetricType::SA),
            _ => None,
        },
        b'P' | b'p' if matches!(second, b'R' | b'r') => Some(MetricType::PR),
        b'U' | b'u' if matches!(second, b'I' | b'i') => Some(MetricType::UI),
        b'C' | b'c' if matches!(second, b'R' | b'r') => Some(MetricType::CR),
        b'I' | b'i' if matches!(second, b'R' | b'r') => Some(MetricType::IR),
        b'R' | b'r' if matches!(second, b'E' | b'e') => Some(MetricType::RE),
        _ => None,
    }
}

/// The metric whose name is these three letters, which is a modified one.
#[inline(always)]
pub(super) fn named_by_three(first: u8, second: u8, third: u8) -> Option<MetricType>
    ensures { IfSome result (λ kind. name_of kind ≡ uppercased (first ∷ second ∷ third ∷ [])) }
{
    match first {
        b'M' | b'm' => modified(second, third),
        _ => None,
    }
}

/// The modified metric whose base metric's name is these two letters.
#[inline(always)]
fn modified(first: u8, second: u8) -> Option<MetricType>
    ensures { IfSome result (λ kind. name_of kind ≡ codes "M" ++ uppercased (first ∷ second ∷ [])) }
{
    match first {
        b'A' | b'a' => match second {
            b'V' | b'v' => Some(MetricType::MAV),
            b'C' | b'c' => Some(MetricType::MAC),
            b'T' | b't' => Some(MetricType::MAT),
            _ => None,
        },
        b'V' | b'v' => match second {
            b'C' | b'c' => Some(MetricType::MVC),
            b'I' | b'i' => Some(MetricType::MVI),
            b'A' | b'a' => Some(MetricType::MVA),
            _ => None,
        },
        b'S' | b's' => match second {
            b'C' | b'c' => Some(MetricType::MSC),
            b'I' | b'i' => Some(MetricType::MSI),
            b'A' | b'a' => Some(MetricType::MSA),
            _ => None,
        },
        b'P' | b'p' if matches!(second, b'R' | b'r') => Some(MetricType::MPR),
        b'U' | b'u' if matches!(second, b'I' | b'i') => Some(MetricType::MUI),
        _ => None,
    }
}
