//! Laws, each the contract of a function that does nothing.

ghost use Rattle.cvss_base.specs.Equality.{ClonesAlways, ClonesByValue};

use crate::hint::Hint;

/// A clone of a hint is that hint.
pub fn clones_are_equal()
    ensures hint { ClonesByValue ⟦<Hint as Clone>⟧.is_clone }
{}

/// To clone a hint takes no memory, so it is never refused.
pub fn values_are_cloned_without_memory()
    ensures hint { ClonesAlways ⟦<Hint as Clone>⟧.is_infallible }
{}
