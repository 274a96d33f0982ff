//! Laws, each the contract of a function that does nothing.

ghost use Rattle.std.specs.Prelude.{◌≡◌, ℤ};
ghost use Rattle.cvss_json.specs.Json.{decimal_text};
ghost use Rattle.cvss_json.specs.declared.member.Scalar.{Scalar};
ghost use Rattle.cvss_json.specs.laws.Decimals.{IsShortestDecimal};

use crate::Scalar;

/// A clone of a value is that value.
pub fn clones_are_equal()
    ensures scalar { (x clone : Scalar) → ⟦<Scalar<'static> as Clone>⟧.is_clone x clone → clone ≡ x }
{}

/// Cloning a value takes no memory, so it never fails.
pub fn values_are_cloned_without_memory()
    ensures scalar { (x : Scalar) → ⟦<Scalar<'static> as Clone>⟧.is_infallible x }
{}

/// A decimal has exactly the value of its ten-millionths, at least one place, and no zero at the end of
/// several places.
pub fn decimals_are_shortest()
    ensures { (count : ℤ) → IsShortestDecimal count (decimal_text count) }
{}
