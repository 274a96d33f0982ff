//! Effective values with their class (v4.0 specification, section 8.2).

ghost use Rattle.std.specs.Prelude.{◌≡◌};
ghost use Rattle.cvss_score.specs.v4.Classes.{macro_vector};
ghost use Rattle.cvss_score.specs.v4.Values.{listed_value, IsListed};

use crate::v4::scoring::effective::Effective;
use crate::v4::scoring::placed::PlacedClass;
use crate::v4::scoring::values::value_of;

/// Effective values, their class with its place, and the value listed for it in tenths.
#[derive(Clone, Copy)]
pub struct Classified {
    pub effective: Effective,
    pub placed: PlacedClass,
    pub value: u8,
    ghost of_effective: { placed.class ≡ macro_vector effective },
    ghost listed: { IsListed (listed_value (macro_vector effective)) value },
}

impl Classified {
    /// Effective values with their class.
    #[inline(always)]
    pub fn of(effective: &Effective) -> Self
        ensures { result.effective ≡ effective.now }
    {
        let placed = PlacedClass::of(effective);
        Classified {
            effective: *effective,
            placed,
            value: value_of(&placed),
        }
    }
}
