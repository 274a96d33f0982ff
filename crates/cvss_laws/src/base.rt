//! Laws of severities, groups of metrics, metric types and errors, each the contract of a function that
//! does nothing. A proof that needs a law calls it.

ghost use Rattle.std.specs.Prelude.{◌≡◌, ◌↔◌, IsTrue};
ghost use Rattle.cvss_base.specs.Equality.{EqualsByValue, ClonesByValue, ClonesAlways};
ghost use Rattle.cvss_base.specs.laws.Order.{ComparesAs};
ghost use Rattle.cvss_laws.specs.base.Errors.{ReportTheSame};
ghost use Rattle.cvss_laws.specs.base.Severities.{severities};
ghost use Rattle.cvss_base.specs.SeverityText as severity;
ghost use Rattle.cvss_base.specs.V2Types as v2_types;
ghost use Rattle.cvss_base.specs.V3Types as v3_types;
ghost use Rattle.cvss_base.specs.V4Types as v4_types;

use cvss_base::{Error, MetricGroup, Severity, v2, v3, v4};
use std::hash::Hash;

/// Severities and metric types compare as they are declared in the tables.
pub fn orders_are_declared()
    ensures severity { ComparesAs severity.text_of severities ⟦<Severity as Ord>⟧.cmp }
    ensures v2 { ComparesAs v2_types.name_of v2_types.declared ⟦<v2::MetricType as Ord>⟧.cmp }
    ensures v3 { ComparesAs v3_types.name_of v3_types.declared ⟦<v3::MetricType as Ord>⟧.cmp }
    ensures v4 { ComparesAs v4_types.name_of v4_types.declared ⟦<v4::MetricType as Ord>⟧.cmp }
{}

/// Two severities, groups or metric types are equal exactly if they are one value, and two errors exactly if
/// they say the same.
pub fn equality_is_that_of_values()
    ensures severity { EqualsByValue ⟦<Severity as PartialEq>⟧.eq }
    ensures group { EqualsByValue ⟦<MetricGroup as PartialEq>⟧.eq }
    ensures v2 { EqualsByValue ⟦<v2::MetricType as PartialEq>⟧.eq }
    ensures v3 { EqualsByValue ⟦<v3::MetricType as PartialEq>⟧.eq }
    ensures v4 { EqualsByValue ⟦<v4::MetricType as PartialEq>⟧.eq }
    ensures error { (x y : Error) → IsTrue (⟦<Error as PartialEq>⟧.eq x y) ↔ ReportTheSame x y }
{}

/// A clone of a severity, a group or a metric type is that value, and a clone of an error says the same.
pub fn clones_are_equal()
    ensures severity { ClonesByValue ⟦<Severity as Clone>⟧.is_clone }
    ensures group { ClonesByValue ⟦<MetricGroup as Clone>⟧.is_clone }
    ensures v2 { ClonesByValue ⟦<v2::MetricType as Clone>⟧.is_clone }
    ensures v3 { ClonesByValue ⟦<v3::MetricType as Clone>⟧.is_clone }
    ensures v4 { ClonesByValue ⟦<v4::MetricType as Clone>⟧.is_clone }
    ensures error { (x clone : Error) → ⟦<Error as Clone>⟧.is_clone x clone → ReportTheSame x clone }
{}

/// To clone a severity, a group or a metric type takes no memory, so it is never refused.
pub fn values_are_cloned_without_memory()
    ensures severity { ClonesAlways ⟦<Severity as Clone>⟧.is_infallible }
    ensures group { ClonesAlways ⟦<MetricGroup as Clone>⟧.is_infallible }
    ensures v2 { ClonesAlways ⟦<v2::MetricType as Clone>⟧.is_infallible }
    ensures v3 { ClonesAlways ⟦<v3::MetricType as Clone>⟧.is_infallible }
    ensures v4 { ClonesAlways ⟦<v4::MetricType as Clone>⟧.is_infallible }
{}

/// What a severity gives to a hasher says it from the others.
pub fn severities_hash_by_value()
    ensures { (x y : Severity) → ⟦<Severity as Hash>⟧.hash_input x
        ≡ ⟦<Severity as Hash>⟧.hash_input y → x ≡ y }
{}
