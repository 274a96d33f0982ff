//! What each group of metrics takes from the value of a class: the gap to the next lower class times
//! the proportion of the distance to the depth (v4.0 specification, section 8.2).
//!
//! The distance is the sum of the levels less the least such sum of the class. The level of a value
//! is its place among the values of its metric, the most severe first.

ghost use Rattle.std.specs.Prelude.{◌≡◌, ◌-◌, ◌*◌, ◌≤◌, IfSome};
ghost use Rattle.cvss_score.specs.v4.Gap.{eq1_group, eq2_group, eq3_eq6_group, eq4_group, eq5_group};
ghost use Rattle.cvss_score.specs.v4.private.Shares.{AreTerms, IsPart, counted_by, taken_by};

use crate::v4::scoring::classes::MacroVector;
use crate::v4::scoring::classified::Classified;
use crate::v4::scoring::effective::Effective;
use crate::v4::scoring::next::{NextClass, eq1_next, eq2_next, eq3_eq6_next, eq4_next, eq5_next};

/// The least level sum of each class of EQ1.
const EQ1_LEAST: [u8; 3] = [0, 1, 3];

/// The part of 840 that a distance of a tenth is in each class of EQ1: 840 divided by the depth.
const EQ1_PARTS: [u32; 3] = [840, 210, 168];

/// The least level sum of each class of EQ2.
const EQ2_LEAST: [u8; 2] = [0, 1];

/// The part of each class of EQ2.
const EQ2_PARTS: [u32; 2] = [840, 420];

/// The least level sum of each class of EQ3 with EQ6: 0,0, 0,1, 1,0, 1,1 and 2,1.
const EQ3_EQ6_LEAST: [u8; 5] = [0, 3, 1, 3, 3];

/// The part of each class of EQ3 with EQ6.
const EQ3_EQ6_PARTS: [u32; 5] = [120, 140, 105, 105, 84];

/// The least level sum of each class of EQ4.
const EQ4_LEAST: [u8; 3] = [1, 3, 6];

/// The part of each class of EQ4.
const EQ4_PARTS: [u32; 3] = [140, 168, 210];

/// The terms of what a group of metrics takes.
#[derive(Clone, Copy)]
pub struct Terms {
    /// The next lower class, if there is one.
    pub next: Option<NextClass>,
    /// The severity distance within the class, in steps of a tenth.
    pub distance: u8,
    /// 840 divided by the depth of the class.
    pub part: u32,
}

/// What a group takes in 8400ths of a point, and 1 if it has a next lower class.
#[derive(Clone, Copy)]
pub struct Share {
    pub taken: u32,
    pub counted: u32,
}

impl Terms {
    /// What the group takes from a value.
    #[inline(always)]
    #[tactic(auto, using(crate::proofs::v4_lemmas::ShareLemmas::gap_bound))]
    pub fn share(&self, value: u8) -> Share
        requires value { value ≤ 100 }
        requires part { IfSome self.now.next
            (λ next. IsPart value next.value self.now.distance self.now.part) }
        ensures taken { result.taken ≡ taken_by value self.now }
        ensures counted { result.counted ≡ counted_by self.now }
        ensures one { result.counted ≤ 1 }
        ensures bound { result.taken ≤ 840 * (value - 1) * result.counted }
    {
        match self.next {
            Some(next) => Share {
                taken: (value - next.value) as u32 * (self.distance as u32 * self.part),
                counted: 1,
            },
            None => Share {
                taken: 0,
                counted: 0,
            },
        }
    }
}

/// The terms of EQ1.
#[inline(always)]
pub fn eq1_terms(values: &Classified) -> Terms
    ensures { AreTerms values.now.value (eq1_group values.now.effective) result }
{
    let Effective { av, pr, ui, .. } = values.effective;
    let class = values.placed.class.eq1 as usize;
    let levels = (3 - av as u8) + (2 - pr as u8) + (2 - ui as u8);
    Terms {
        next: eq1_next(&values.placed),
        distance: levels - EQ1_LEAST[class],
        part: EQ1_PARTS[class],
    }
}

/// The terms of EQ2.
#[inline(always)]
pub fn eq2_terms(values: &Classified) -> Terms
    ensures { AreTerms values.now.value (eq2_group values.now.effective) result }
{
    let Effective { ac, at, .. } = values.effective;
    let class = values.placed.class.eq2 as usize;
    let levels = (1 - ac as u8) + (1 - at as u8);
    Terms {
        next: eq2_next(&values.placed),
        distance: levels - EQ2_LEAST[class],
        part: EQ2_PARTS[class],
    }
}

/// The terms of EQ3 with EQ6.
#[inline(always)]
pub fn eq3_eq6_terms(values: &Classified) -> Terms
    ensures { AreTerms values.now.value (eq3_eq6_group values.now.effective) result }
{
    let effective = &values.effective;
    let MacroVector { eq3, eq6, .. } = values.placed.class;
    let class = (2 * eq3 + eq6).min(4) as usize;
    let impacts = effective.vc as u8 + effective.vi as u8 + effective.va as u8;
    let requirements = effective.cr as u8 + effective.ir as u8 + effective.ar as u8;
    Terms {
        next: eq3_eq6_next(&values.placed),
        distance: impacts + requirements - EQ3_EQ6_LEAST[class],
        part: EQ3_EQ6_PARTS[class],
    }
}

/// The terms of EQ4.
#[inline(always)]
pub fn eq4_terms(values: &Classified) -> Terms
    ensures { AreTerms values.now.value (eq4_group values.now.effective) result }
{
    let Effective { sc, si, sa, .. } = values.effective;
    let class = values.placed.class.eq4 as usize;
    let levels = 1 + sc as u8 + si as u8 + sa as u8;
    Terms {
        next: eq4_next(&values.placed),
        distance: levels - EQ4_LEAST[class],
        part: EQ4_PARTS[class],
    }
}

/// The terms of EQ5, whose classes have one value each: it takes nothing, and is counted.
#[inline(always)]
pub fn eq5_terms(values: &Classified) -> Terms
    ensures { AreTerms values.now.value (eq5_group values.now.effective) result }
{
    Terms {
        next: eq5_next(&values.placed),
        distance: 0,
        part: 840,
    }
}
