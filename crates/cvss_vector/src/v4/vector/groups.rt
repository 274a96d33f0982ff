//! The groups of metrics of a vector (v4.0 specification, section 1.3): which it has, the vector
//! without some, and with another's environmental metrics in place of its own (section 4).

ghost use Rattle.std.specs.Prelude.{◌≡◌, ◌≤◌, ◌^◌, ◌*ℤ◌, pos, IsTrue};
ghost use Rattle.cvss_base.specs.Tenths.{IsInTenths};
ghost use Rattle.cvss_base.specs.Version.{IsComplete};
ghost use Rattle.cvss_base.specs.declared.group.MetricGroup.TheVariants.{Environmental, Threat};
ghost use Rattle.cvss_score.specs.declared.v4.nomenclature.Nomenclature.TheVariants.{CvssBTE};
ghost use Rattle.cvss_score.specs.v4.Scores.{IsScore};
ghost use Rattle.cvss_vector.specs.v4.Merging.{effective_of};
ghost use Rattle.cvss_vector.specs.v4.Nomenclature.{has_group, nomenclature_of};
ghost use Rattle.cvss_vector.specs.v4.Overriding.{IsOverridden};
ghost use Rattle.cvss_vector.specs.v4.Parts.{IsPart, IsScoreBy, IsWithout};
ghost use Rattle.cvss_vector.specs.v4.private.Alone.{IsBaseAlone};
ghost use Rattle.cvss_vector.specs.v4.Vector.{v4};

use crate::v4::vector::Vector;
use cvss_score::v4::{Nomenclature, nomenclature_of_groups};

/// The environmental metrics of a vector: whether it has any, whether it has neither any nor a threat
/// metric, the vector with none of them, and the vector with those of another in their place.
macro_rules! environmental {
    ($what:ident $($vector:ident)*) => {
        environmental!($what($($vector)*) cr ir ar mav mac mat mpr mui mvc mvi mva msc msi msa)
    };
    (any($vector:ident) $first:ident $($field:ident)*) => {
        $vector.$first.is_some() $(|| $vector.$field.is_some())*
    };
    (alone($vector:ident) $($field:ident)*) => {
        matches!($vector, Vector { e: None, $($field: None,)* .. })
    };
    (none($vector:ident) $($field:ident)*) => {
        Vector { $($field: None,)* ..*$vector }
    };
    (replaced($vector:ident $overrides:ident) $($field:ident)*) => {
        Vector { $($field: $overrides.$field.or($vector.$field),)* ..*$vector }
    };
}

impl Vector {
    /// The groups of metrics that the vector has, besides the supplemental ones. A metric that is
    /// present as not defined counts.
    pub fn nomenclature(&self) -> Nomenclature
        ensures { result ≡ nomenclature_of self.now }
    {
        nomenclature_of_groups(self.e, self.has_environmental())
    }

    /// Whether the vector has an environmental metric.
    fn has_environmental(&self) -> bool
        ensures { result ≡ has_group self.now Environmental }
    {
        environmental!(any self)
    }

    /// The tenths of a complete vector's score by a nomenclature: the score of the vector without its
    /// metrics of the other groups. That of CVSS-BTE is the vector's own score.
    pub fn tenths_by(&self, nomenclature: Nomenclature) -> u8
        requires complete { IsComplete v4 self.now }
        ensures value { IsScoreBy nomenclature self.now (pos result *ℤ pos (10 ^ 23)) }
        ensures own { nomenclature ≡ CvssBTE
            → IsInTenths (IsScore (effective_of self.now)) (pos result *ℤ pos (10 ^ 23)) }
        ensures range { result ≤ 100 }
    {
        self.part(nomenclature).tenths()
    }

    /// The same, where the tenths of the vector's own score are known: of a vector without threat and
    /// environmental metrics they are those of each nomenclature.
    pub fn tenths_given(&self, nomenclature: Nomenclature, own: u8) -> u8
        requires complete { IsComplete v4 self.now }
        requires own { IsInTenths (IsScore (effective_of self.now)) (pos own *ℤ pos (10 ^ 23)) }
        requires range { own ≤ 100 }
        ensures value { IsScoreBy nomenclature self.now (pos result *ℤ pos (10 ^ 23)) }
        ensures range { result ≤ 100 }
    {
        if self.has_base_alone() {
            own
        } else {
            self.tenths_by(nomenclature)
        }
    }

    /// Whether the vector has no threat metric and no environmental one.
    fn has_base_alone(&self) -> bool
        ensures { IsTrue result → IsBaseAlone self.now }
    {
        environmental!(alone self)
    }

    /// The vector without its threat metric and its environmental metrics, as far as a score of this
    /// nomenclature does not count them.
    pub fn part(&self, nomenclature: Nomenclature) -> Vector
        ensures part { IsPart nomenclature self.now result }
        ensures own { nomenclature ≡ CvssBTE → result ≡ self.now }
        ensures complete { IsComplete v4 self.now → IsComplete v4 result }
    {
        self.counted_by(nomenclature)
    }

    fn counted_by(&self, nomenclature: Nomenclature) -> Vector
        ensures part { IsPart nomenclature self.now result }
        ensures own { nomenclature ≡ CvssBTE → result ≡ self.now }
    {
        match nomenclature {
            Nomenclature::CvssB => self.without_threat().without_environmental(),
            Nomenclature::CvssBE => self.without_threat(),
            Nomenclature::CvssBT => self.without_environmental(),
            Nomenclature::CvssBTE => *self,
        }
    }

    /// The vector without its threat metric.
    pub fn without_threat(&self) -> Vector
        ensures { IsWithout Threat self.now result }
    {
        Vector { e: None, ..*self }
    }

    /// The vector without its environmental metrics.
    pub fn without_environmental(&self) -> Vector
        ensures { IsWithout Environmental self.now result }
    {
        environmental!(none self)
    }

    /// The vector with the environmental metrics of another where that has them. All else is kept.
    pub fn overridden_by(&self, overrides: &Vector) -> Vector
        ensures map { IsOverridden self.now overrides.now result }
        ensures complete { IsComplete v4 self.now → IsComplete v4 result }
    {
        environmental!(replaced self overrides)
    }
}

impl From<&Vector> for Nomenclature {
    ghost from_gives = { λ vector nomenclature. nomenclature ≡ nomenclature_of vector.now };

    fn from(vector: &Vector) -> Self {
        vector.nomenclature()
    }
}
