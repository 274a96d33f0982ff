//! Laws of explanations, each the contract of a function that does nothing.

ghost use Rattle.std.specs.Prelude.{ℕ, pos};
ghost use Rattle.cvss_base.specs.Equality.{ClonesAlways, ClonesByValue};
ghost use Rattle.cvss_base.specs.Exact.{◌over◌};
ghost use Rattle.cvss_explain.specs.Decimal.{nearest_to};
ghost use Rattle.cvss_explain.specs.Near.{IsNear};

use crate::object::Entry;
use crate::step::{Amount, Quantity, Step};

/// A decimal is less than a millionth from the exact number, and is that number where it has no more
/// than seven places.
pub fn decimals_are_near()
    ensures of_504000ths { (n : ℕ) → IsNear (n over 504_000) (pos (nearest_to n 504_000)) }
    ensures of_8400ths { (n : ℕ) → IsNear (n over 8400) (pos (nearest_to n 8400)) }
{}

/// A clone of a step is this step.
pub fn clones_are_equal()
    ensures quantity { ClonesByValue ⟦<Quantity as Clone>⟧.is_clone }
    ensures amount { ClonesByValue ⟦<Amount as Clone>⟧.is_clone }
    ensures step { ClonesByValue ⟦<Step as Clone>⟧.is_clone }
    ensures entry { ClonesByValue ⟦<Entry as Clone>⟧.is_clone }
{}

/// Cloning a step takes no memory, so it never fails.
pub fn steps_are_cloned_without_memory()
    ensures quantity { ClonesAlways ⟦<Quantity as Clone>⟧.is_infallible }
    ensures amount { ClonesAlways ⟦<Amount as Clone>⟧.is_infallible }
    ensures step { ClonesAlways ⟦<Step as Clone>⟧.is_infallible }
    ensures entry { ClonesAlways ⟦<Entry as Clone>⟧.is_infallible }
{}
