//! Laws, each the contract of a function that does nothing.

ghost use Rattle.std.specs.Prelude.{◌≡◌, ◌↔◌, IsTrue};
ghost use Rattle.cvss_lines.specs.declared.fault.RunFault.{RunFault};
ghost use Rattle.cvss_lines.specs.declared.summary.Summary.{Summary};

use crate::{RunFault, Summary};

/// Two summaries or faults are equal exactly if they are one value.
pub fn equality_is_that_of_values()
    ensures summary { (x y : Summary) → IsTrue (⟦<Summary as PartialEq>⟧.eq x y) ↔ (x ≡ y) }
    ensures run_fault { (x y : RunFault) → IsTrue (⟦<RunFault as PartialEq>⟧.eq x y) ↔ (x ≡ y) }
{}

/// A clone of a summary or a fault is that value.
pub fn clones_are_equal()
    ensures summary { (x clone : Summary) → ⟦<Summary as Clone>⟧.is_clone x clone → clone ≡ x }
    ensures run_fault { (x clone : RunFault) → ⟦<RunFault as Clone>⟧.is_clone x clone → clone ≡ x }
{}

/// To clone a summary or a fault takes no memory, so it is never refused.
pub fn values_are_cloned_without_memory()
    ensures summary { (x : Summary) → ⟦<Summary as Clone>⟧.is_infallible x }
    ensures run_fault { (x : RunFault) → ⟦<RunFault as Clone>⟧.is_infallible x }
{}
