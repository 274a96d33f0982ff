//! Laws, each the contract of a function that does nothing.

ghost use Rattle.cvss_base.specs.Equality.{ClonesAlways, ClonesByValue, EqualsByValue};

use crate::form::Form;
use crate::overrides::{Family, Override};
use crate::preferring::Preference;

/// Two families are equal exactly if they are one value.
pub fn equality_is_that_of_values()
    ensures { EqualsByValue ⟦<Family as PartialEq>⟧.eq }
{}

/// A clone of a form, a family, an override or a preference is that value.
pub fn clones_are_equal()
    ensures form { ClonesByValue ⟦<Form as Clone>⟧.is_clone }
    ensures family { ClonesByValue ⟦<Family as Clone>⟧.is_clone }
    ensures of_override { ClonesByValue ⟦<Override<'static> as Clone>⟧.is_clone }
    ensures preference { ClonesByValue ⟦<Preference as Clone>⟧.is_clone }
{}

/// Cloning them takes no memory, so it never fails.
pub fn values_are_cloned_without_memory()
    ensures form { ClonesAlways ⟦<Form as Clone>⟧.is_infallible }
    ensures family { ClonesAlways ⟦<Family as Clone>⟧.is_infallible }
    ensures of_override { ClonesAlways ⟦<Override<'static> as Clone>⟧.is_infallible }
    ensures preference { ClonesAlways ⟦<Preference as Clone>⟧.is_infallible }
{}
