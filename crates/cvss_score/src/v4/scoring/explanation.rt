//! The explanation of a score: the numbers on its way (v4.0 specification, section 8.2).

ghost use Rattle.std.specs.Prelude.{◌≡◌, ◌/◌, ◌≤◌, IfSome};
ghost use Rattle.cvss_score.specs.v4.Explanation.{AreGroupExplanations, AreInRange, GroupsAreInRange, IsExplanation, IsInRange};
ghost use Rattle.cvss_score.specs.v4.private.Shares.{IsPart, taken_by};

use crate::v4::scoring::classes::MacroVector;
use crate::v4::scoring::classified::Classified;
use crate::v4::scoring::effective::Effective;
use crate::v4::scoring::next::NextClass;
use crate::v4::scoring::score::{has_impact, less_mean, mean_taken};
use crate::v4::scoring::shares::{
    Terms, eq1_terms, eq2_terms, eq3_eq6_terms, eq4_terms, eq5_terms,
};

/// Why effective values score what they score.
#[derive(Clone, Copy)]
pub struct Explanation {
    /// The effective values.
    pub effective: Effective,
    /// Their class.
    pub class: MacroVector,
    /// The value listed for the class, in tenths.
    pub value: u8,
    /// What each group of metrics brings to the score, which are none without impact.
    pub groups: Option<GroupExplanations>,
    /// The mean of what the groups with a next lower class take, in 504000ths of a point.
    pub mean: u32,
    /// The value less the mean, in 504000ths of a point, and 0 without impact. The score is this
    /// number, rounded.
    pub number: u32,
}

/// What each of the five groups of metrics brings to a score.
#[derive(Clone, Copy)]
pub struct GroupExplanations {
    pub eq1: GroupExplanation,
    pub eq2: GroupExplanation,
    pub eq3_eq6: GroupExplanation,
    pub eq4: GroupExplanation,
    pub eq5: GroupExplanation,
}

/// What a group of metrics brings to a score.
#[derive(Clone, Copy)]
pub struct GroupExplanation {
    /// The next lower class, if there is one.
    pub next: Option<NextClass>,
    /// The severity distance within the class, in steps of a tenth.
    pub distance: u8,
    /// The depth of the class, in steps of a tenth.
    pub depth: u8,
    /// The gap to the next lower value times distance over depth, in 8400ths of a point.
    pub taken: u32,
}

impl Explanation {
    /// The explanation of the score of effective values.
    pub fn of(effective: &Effective) -> Self
        ensures explanation { IsExplanation effective.now result }
        ensures range { AreInRange result }
    {
        let values = Classified::of(effective);
        let harmless = Explanation {
            effective: *effective,
            class: values.placed.class,
            value: values.value,
            groups: None,
            mean: 0,
            number: 0,
        };
        if !has_impact(effective) {
            return harmless;
        }
        let mean = mean_taken(&values);
        Explanation {
            groups: Some(GroupExplanations::of(&values)),
            mean,
            number: less_mean(values.value, mean),
            ..harmless
        }
    }
}

impl GroupExplanations {
    fn of(values: &Classified) -> Self
        ensures value { AreGroupExplanations values.now.effective result }
        ensures range { GroupsAreInRange values.now.value result }
    {
        GroupExplanations {
            eq1: GroupExplanation::of(eq1_terms(values), values.value),
            eq2: GroupExplanation::of(eq2_terms(values), values.value),
            eq3_eq6: GroupExplanation::of(eq3_eq6_terms(values), values.value),
            eq4: GroupExplanation::of(eq4_terms(values), values.value),
            eq5: GroupExplanation::of(eq5_terms(values), values.value),
        }
    }
}

impl GroupExplanation {
    fn of(terms: Terms, value: u8) -> Self
        requires value { value ≤ 100 }
        requires part { 84 ≤ terms.part }
        requires takes { IfSome terms.next
            (λ next. IsPart value next.value terms.distance terms.part) }
        ensures next { result.next ≡ terms.next }
        ensures distance { result.distance ≡ terms.distance }
        ensures depth { result.depth ≡ 840 / terms.part }
        ensures taken { result.taken ≡ taken_by value terms }
        ensures range { IsInRange value result }
    {
        GroupExplanation {
            next: terms.next,
            distance: terms.distance,
            depth: (840 / terms.part) as u8,
            taken: terms.share(value).taken,
        }
    }
}
