//! The metrics of CVSS v4.0: how their values are spelled, and the type of the places of each.

ghost use Rattle.std.specs.Prelude.{◌≡◌, map};
ghost use Rattle.cvss_metric.specs.v4.Table.{spellings_of, two_kind, three_kind, four_kind, five_kind};

use super::place::{OneOfFive, OneOfFour, OneOfThree, OneOfTwo};
use crate::v4::metric::MetricType;

/// How the values of a metric are spelled (v4.0 specification, section 7), as they are compared, the
/// least first.
pub fn spellings(kind: MetricType) -> &'static [&'static str]
    ensures { map (λ text. text.now) result.now ≡ spellings_of kind }
{
    match kind {
        MetricType::AV => &["P", "L", "A", "N"],
        MetricType::AC => &["H", "L"],
        MetricType::AT => &["P", "N"],
        MetricType::PR => &["H", "L", "N"],
        MetricType::UI => &["A", "P", "N"],
        MetricType::VC
        | MetricType::VI
        | MetricType::VA
        | MetricType::SC
        | MetricType::SI
        | MetricType::SA => &["N", "L", "H"],
        MetricType::E => &["X", "U", "P", "A"],
        MetricType::CR | MetricType::IR | MetricType::AR | MetricType::RE => &["X", "L", "M", "H"],
        MetricType::MAV => &["P", "L", "A", "N", "X"],
        MetricType::MAC => &["X", "H", "L"],
        MetricType::MAT => &["X", "P", "N"],
        MetricType::MPR => &["X", "H", "L", "N"],
        MetricType::MUI => &["X", "A", "P", "N"],
        MetricType::MVC | MetricType::MVI | MetricType::MVA | MetricType::MSC => {
            &["X", "N", "L", "H"]
        }
        MetricType::MSI | MetricType::MSA => &["X", "N", "L", "H", "S"],
        MetricType::S => &["X", "P", "N"],
        MetricType::AU => &["X", "Y", "N"],
        MetricType::R => &["X", "A", "U", "I"],
        MetricType::V => &["X", "D", "C"],
        MetricType::U => &["X", "Red", "Amber", "Green", "Clear"],
    }
}

/// The metrics with two values, in printing order.
const WITH_TWO: [MetricType; 2] = [MetricType::AC, MetricType::AT];

/// The metric with two values of a number: its place among them.
pub(super) const fn two_kind(number: usize) -> MetricType
    ensures { result ≡ two_kind number }
{
    if number < WITH_TWO.len() {
        WITH_TWO[number]
    } else {
        MetricType::AC
    }
}

/// Attack Complexity.
pub type AC = OneOfTwo<0>;

/// Attack Requirements.
pub type AT = OneOfTwo<1>;

/// The metrics with three values, in printing order.
const WITH_THREE: [MetricType; 13] = [
    MetricType::PR,
    MetricType::UI,
    MetricType::VC,
    MetricType::VI,
    MetricType::VA,
    MetricType::SC,
    MetricType::SI,
    MetricType::SA,
    MetricType::MAC,
    MetricType::MAT,
    MetricType::S,
    MetricType::AU,
    MetricType::V,
];

/// The metric with three values of a number: its place among them.
pub(super) const fn three_kind(number: usize) -> MetricType
    ensures { result ≡ three_kind number }
{
    if number < WITH_THREE.len() {
        WITH_THREE[number]
    } else {
        MetricType::PR
    }
}

/// Privileges Required.
pub type PR = OneOfThree<0>;

/// User Interaction.
pub type UI = OneOfThree<1>;

/// Confidentiality Impact to the Vulnerable System.
pub type VC = OneOfThree<2>;

/// Integrity Impact to the Vulnerable System.
pub type VI = OneOfThree<3>;

/// Availability Impact to the Vulnerable System.
pub type VA = OneOfThree<4>;

/// Confidentiality Impact to the Subsequent System.
pub type SC = OneOfThree<5>;

/// Integrity Impact to the Subsequent System.
pub type SI = OneOfThree<6>;

/// Availability Impact to the Subsequent System.
pub type SA = OneOfThree<7>;

/// Modified Attack Complexity.
pub type MAC = OneOfThree<8>;

/// Modified Attack Requirements.
pub type MAT = OneOfThree<9>;

/// Safety.
pub type S = OneOfThree<10>;

/// Automatable.
pub type AU = OneOfThree<11>;

/// Value Density.
pub type V = OneOfThree<12>;

/// The metrics with four values, in printing order.
const WITH_FOUR: [MetricType; 13] = [
    MetricType::AV,
    MetricType::E,
    MetricType::CR,
    MetricType::IR,
    MetricType::AR,
    MetricType::MPR,
    MetricType::MUI,
    MetricType::MVC,
    MetricType::MVI,
    MetricType::MVA,
    MetricType::MSC,
    MetricType::R,
    MetricType::RE,
];

/// The metric with four values of a number: its place among them.
pub(super) const fn four_kind(number: usize) -> MetricType
    ensures { result ≡ four_kind number }
{
    if number < WITH_FOUR.len() {
        WITH_FOUR[number]
    } else {
        MetricType::AV
    }
}

/// Attack Vector.
pub type AV = OneOfFour<0>;

/// Exploit Maturity.
pub type E = OneOfFour<1>;

/// Confidentiality Requirements.
pub type CR = OneOfFour<2>;

/// Integrity Requirements.
pub type IR = OneOfFour<3>;

/// Availability Requirements.
pub type AR = OneOfFour<4>;

/// Modified Privileges Required.
pub type MPR = OneOfFour<5>;

/// Modified User Interaction.
pub type MUI = OneOfFour<6>;

/// Modified Confidentiality Impact to the Vulnerable System.
pub type MVC = OneOfFour<7>;

/// Modified Integrity Impact to the Vulnerable System.
pub type MVI = OneOfFour<8>;

/// Modified Availability Impact to the Vulnerable System.
pub type MVA = OneOfFour<9>;

/// Modified Confidentiality Impact to the Subsequent System.
pub type MSC = OneOfFour<10>;

/// Recovery.
pub type R = OneOfFour<11>;

/// Vulnerability Response Effort.
pub type RE = OneOfFour<12>;

/// The metrics with five values, in printing order.
const WITH_FIVE: [MetricType; 4] = [
    MetricType::MAV,
    MetricType::MSI,
    MetricType::MSA,
    MetricType::U,
];

/// The metric with five values of a number: its place among them.
pub(super) const fn five_kind(number: usize) -> MetricType
    ensures { result ≡ five_kind number }
{
    if number < WITH_FIVE.len() {
        WITH_FIVE[number]
    } else {
        MetricType::MAV
    }
}

/// Modified Attack Vector.
pub type MAV = OneOfFive<0>;

/// Modified Integrity Impact to the Subsequent System.
pub type MSI = OneOfFive<1>;

/// Modified Availability Impact to the Subsequent System.
pub type MSA = OneOfFive<2>;

/// Provider Urgency.
pub type U = OneOfFive<3>;
