//! The next lower class in each group of metrics, with its value (v4.0 specification, section 8.2).

ghost use Rattle.std.specs.Prelude.{◌≡◌, IfSome, option_map, nat_lt, if◌then◌else◌};
ghost use Rattle.cvss_score.specs.v4.Explanation.{with_value};
ghost use Rattle.cvss_score.specs.v4.Gap.{eq1_next, eq2_next, eq3_eq6_next, eq4_next, eq5_next};
ghost use Rattle.cvss_score.specs.v4.Classes.{IsMacroVector};
ghost use Rattle.cvss_score.specs.v4.private.Next.{IsInTable};
ghost use Rattle.cvss_score.specs.v4.private.Places.{place_of};

use crate::v4::scoring::classes::MacroVector;
use crate::v4::scoring::placed::PlacedClass;
use crate::v4::scoring::values::value_of;

/// How far a class with EQ1 one higher follows another among the values.
const EQ1_STEP: usize = 90;

/// How far a class with EQ2 one higher follows another.
const EQ2_STEP: usize = 45;

/// How far a class with the next pair of EQ3 with EQ6 follows another.
const PAIR_STEP: usize = 9;

/// How far a class with EQ4 one higher follows another.
const EQ4_STEP: usize = 3;

/// How far a class with EQ5 one higher follows another.
const EQ5_STEP: usize = 1;

/// A next lower class with the value listed for it, in tenths.
#[derive(Clone, Copy)]
pub struct NextClass {
    pub class: MacroVector,
    pub value: u8,
}

impl NextClass {
    /// A class with its value.
    #[inline(always)]
    fn at(placed: PlacedClass) -> Self
        ensures value { result ≡ with_value placed.class }
        ensures listed { IsInTable result }
    {
        let value = value_of(&placed);
        NextClass {
            class: placed.class,
            value,
        }
    }
}

/// The next lower class in EQ1.
#[inline(always)]
pub fn eq1_next(placed: &PlacedClass) -> Option<NextClass>
    ensures next { result ≡ option_map with_value (eq1_next placed.now.class) }
    ensures listed { IfSome result IsInTable }
{
    let class = placed.class;
    let eq1 = class.eq1 + 1;
    if eq1 > 2 {
        return None;
    }
    let placed = PlacedClass {
        class: MacroVector { eq1, ..class },
        place: placed.place + EQ1_STEP,
    };
    Some(NextClass::at(placed))
}

/// The next lower class in EQ2.
#[inline(always)]
pub fn eq2_next(placed: &PlacedClass) -> Option<NextClass>
    ensures next { result ≡ option_map with_value (eq2_next placed.now.class) }
    ensures listed { IfSome result IsInTable }
{
    let class = placed.class;
    let eq2 = class.eq2 + 1;
    if eq2 > 1 {
        return None;
    }
    let placed = PlacedClass {
        class: MacroVector { eq2, ..class },
        place: placed.place + EQ2_STEP,
    };
    Some(NextClass::at(placed))
}

/// The next lower class in EQ3 with EQ6, of two pairs that with the larger value.
#[inline(always)]
pub fn eq3_eq6_next(placed: &PlacedClass) -> Option<NextClass>
    ensures next { result ≡ option_map with_value (eq3_eq6_next placed.now.class) }
    ensures listed { IfSome result IsInTable }
{
    let class = placed.class;
    let place = placed.place + PAIR_STEP;
    match (class.eq3, class.eq6) {
        (0, 0) => {
            let first = NextClass::at(PlacedClass {
                class: MacroVector { eq6: 1, ..class },
                place,
            });
            let second = NextClass::at(PlacedClass {
                class: MacroVector { eq3: 1, ..class },
                place: place + PAIR_STEP,
            });
            Some(of_larger_value(first, second))
        }
        (0, _) => Some(NextClass::at(PlacedClass {
            class: MacroVector { eq3: 1, ..class },
            place: place + PAIR_STEP,
        })),
        (1, 0) => Some(NextClass::at(PlacedClass {
            class: MacroVector { eq6: 1, ..class },
            place,
        })),
        (1, _) => Some(NextClass::at(PlacedClass {
            class: MacroVector { eq3: 2, ..class },
            place,
        })),
        _ => None,
    }
}

/// Of two classes the one with the larger value, of two with equal values the first.
#[inline(always)]
fn of_larger_value(first: NextClass, second: NextClass) -> NextClass
    ensures { result ≡ (if nat_lt first.value second.value then second else first) }
{
    if first.value < second.value {
        second
    } else {
        first
    }
}

/// The next lower class in EQ4.
#[inline(always)]
pub fn eq4_next(placed: &PlacedClass) -> Option<NextClass>
    ensures next { result ≡ option_map with_value (eq4_next placed.now.class) }
    ensures listed { IfSome result IsInTable }
{
    let class = placed.class;
    let eq4 = class.eq4 + 1;
    if eq4 > 2 {
        return None;
    }
    let placed = PlacedClass {
        class: MacroVector { eq4, ..class },
        place: placed.place + EQ4_STEP,
    };
    Some(NextClass::at(placed))
}

/// The next lower class in EQ5.
#[inline(always)]
pub fn eq5_next(placed: &PlacedClass) -> Option<NextClass>
    ensures next { result ≡ option_map with_value (eq5_next placed.now.class) }
    ensures listed { IfSome result IsInTable }
{
    let class = placed.class;
    let eq5 = class.eq5 + 1;
    if eq5 > 2 {
        return None;
    }
    let placed = PlacedClass {
        class: MacroVector { eq5, ..class },
        place: placed.place + EQ5_STEP,
    };
    Some(NextClass::at(placed))
}
