//! Laws of vectors of CVSS v2, each the contract of a function that does nothing. A proof that
//! needs a law calls it.

ghost use Rattle.std.specs.Prelude.{◌≡◌, None};
ghost use Rattle.cvss_base.specs.Equality.{EqualsByValue, ClonesByValue};
ghost use Rattle.cvss_base.specs.declared.v2.MetricType.{MetricType};
ghost use Rattle.cvss_vector.specs.v2.Vector.{value_at};

use crate::v2::Vector;

/// Two vectors are equal exactly if they are one; a clone is the vector, and the default vector has
/// no metric.
pub fn vectors_are_their_values()
    ensures equality { EqualsByValue ⟦<Vector as PartialEq>⟧.eq }
    ensures clone { ClonesByValue ⟦<Vector as Clone>⟧.is_clone }
    ensures default { (vector : Vector) → ⟦<Vector as Default>⟧.is_default vector
        → (kind : MetricType) → value_at vector kind ≡ None }
{}
