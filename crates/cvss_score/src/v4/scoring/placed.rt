//! A class with its place among the values (v4.0 specification, section 8.2).

ghost use Rattle.std.specs.Prelude.{◌≡◌};
ghost use Rattle.cvss_score.specs.v4.Classes.{macro_vector, IsMacroVector};
ghost use Rattle.cvss_score.specs.v4.private.Places.{place_of};

use crate::v4::scoring::classes::MacroVector;
use crate::v4::scoring::effective::Effective;

/// A class, and its place in the list of the values of all classes.
#[derive(Clone, Copy)]
pub struct PlacedClass {
    pub class: MacroVector,
    pub place: usize,
    ghost is_class: { IsMacroVector class },
    ghost at_place: { place ≡ place_of class },
}

impl PlacedClass {
    /// The class of effective values.
    #[inline(always)]
    pub fn of(effective: &Effective) -> Self
        ensures { result.class ≡ macro_vector effective.now }
    {
        let class = MacroVector::of(effective);
        let impact = (2 * class.eq3 + class.eq6).min(4);
        let row = (2 * class.eq1 + class.eq2) * 5 + impact;
        let place = (row as usize * 3 + class.eq4 as usize) * 3 + class.eq5 as usize;
        PlacedClass { class, place }
    }
}
