//! The letters of effective values.

ghost use Rattle.std.specs.Prelude.{◌≡◌, ◌≤◌, Some, length};
ghost use Rattle.cvss_explain.specs.LettersV4.{safety_impact_letter, requirement_letter, letter_at, letter_member};

use MetricType::*;
use cvss_base::v4::MetricType;
use cvss_json::{Members, Page, Scalar, put_member};
use cvss_score::v4::scoring::effective::{
    AttackComplexity, AttackRequirements, AttackVector, Effective, ExploitMaturity,
    PrivilegesRequired, Requirement, SafetyImpact, SubsequentImpact, UserInteraction,
    VulnerableImpact,
};

/// The metrics that have an effective value, in the order of their names.
pub(crate) const EFFECTIVE: [MetricType; 15] = [
    AC, AR, AT, AV, CR, E, IR, PR, SA, SC, SI, UI, VA, VC, VI,
];

/// The letters of effective values.
#[derive(Drop)]
pub(crate) struct Letters<'e> {
    pub(crate) effective: &'e Effective,
}

impl Members<MetricType> for Letters<'_> {
    ghost text_at = { λ letters kind. Some (letter_member letters.effective.now kind) };

    ghost room_at = { λ _ _. 44 };

    fn put_at(&self, page: &mut Page, later: bool, kind: MetricType) -> bool {
        put_member(
            page,
            later,
            kind.name(),
            Scalar::Text(letter(self.effective, kind)),
        );
        true
    }
}

/// The letter of an effective value, by those of its type.
macro_rules! letter {
    ($value:expr, $value_type:ident[$($name:ident $letter:literal),*]) => {
        match $value {
            $($value_type::$name => $letter,)*
        }
    };
}

/// The letter of the effective value of a metric, and none where it has no such value.
fn letter(effective: &Effective, kind: MetricType) -> &'static str
    ensures text { result.now ≡ letter_at effective.now kind }
    ensures short { length result.now ≤ 1 }
{
    match kind {
        MetricType::AV => {
            letter!(effective.av, AttackVector[Network "N", Adjacent "A", Local "L", Physical "P"])
        }
        MetricType::AC => letter!(effective.ac, AttackComplexity[Low "L", High "H"]),
        MetricType::AT => letter!(effective.at, AttackRequirements[None "N", Present "P"]),
        MetricType::PR => letter!(effective.pr, PrivilegesRequired[None "N", Low "L", High "H"]),
        MetricType::UI => letter!(effective.ui, UserInteraction[None "N", Passive "P", Active "A"]),
        MetricType::VC => letter!(effective.vc, VulnerableImpact[High "H", Low "L", None "N"]),
        MetricType::VI => letter!(effective.vi, VulnerableImpact[High "H", Low "L", None "N"]),
        MetricType::VA => letter!(effective.va, VulnerableImpact[High "H", Low "L", None "N"]),
        MetricType::SC => letter!(effective.sc, SubsequentImpact[High "H", Low "L", None "N"]),
        MetricType::SI => safety_impact(effective.si),
        MetricType::SA => safety_impact(effective.sa),
        MetricType::E => {
            letter!(effective.e, ExploitMaturity[Attacked "A", ProofOfConcept "P", Unreported "U"])
        }
        MetricType::CR => requirement(effective.cr),
        MetricType::IR => requirement(effective.ir),
        MetricType::AR => requirement(effective.ar),
        _ => "",
    }
}

/// The letter of SI or SA.
fn safety_impact(value: SafetyImpact) -> &'static str
    ensures text { result.now ≡ safety_impact_letter value }
    ensures short { length result.now ≤ 1 }
{
    letter!(value, SafetyImpact[Safety "S", High "H", Low "L", None "N"])
}

/// The letter of CR, IR or AR.
fn requirement(value: Requirement) -> &'static str
    ensures text { result.now ≡ requirement_letter value }
    ensures short { length result.now ≤ 1 }
{
    letter!(value, Requirement[High "H", Medium "M", Low "L"])
}
