//! What the values of metrics weigh, in hundredths, and which value counts.

ghost use Rattle.std.specs.Prelude.{◌≡◌};
ghost use Rattle.cvss_metric.specs.v3.Modified.{weight_or};
ghost use Rattle.cvss_metric.specs.v3.Table.{weight_of};
ghost use Rattle.cvss_score.specs.v3.Weighing.{effective, effective_scope, is_changed as is_scope_changed, privileges_weight};

use cvss_metric::v3::MetricValue;
use cvss_metric::v3::base::{PrivilegesRequired, Scope};
use cvss_metric::v3::environmental::{Modified, ModifiedScope};

/// The weight of a value in hundredths, or another where the metric is absent.
#[inline(always)]
pub fn weight<M: MetricValue>(value: Option<M>, absent: u64) -> u64
    ensures { result ≡ weight_or (λ metric. weight_of M.KIND (M.value metric)) value absent }
{
    match value {
        Some(metric) => metric.hundredths().unwrap_or(0),
        None => absent,
    }
}

/// The weight of the privileges required in hundredths by the scope, or 0 where there is none.
#[inline(always)]
pub fn scoped_weight(value: Option<PrivilegesRequired>, changed: bool) -> u64
    ensures { result ≡ privileges_weight changed value }
{
    match value {
        Some(privileges) => privileges.scoped_hundredths(changed),
        None => 0,
    }
}

/// The weight of the modified privileges required in hundredths, by the modified scope.
#[inline(always)]
pub fn modified_privileges(
    modified: Option<Modified<PrivilegesRequired>>,
    base: Option<PrivilegesRequired>,
    modified_scope: Option<ModifiedScope>,
    scope: Option<Scope>,
) -> u64
    ensures { result ≡ privileges_weight
        (is_scope_changed (effective_scope modified_scope scope)) (effective modified base) }
{
    scoped_weight(
        effective(modified, base),
        is_changed(effective_scope(modified_scope, scope)),
    )
}

/// The value of a modified metric where it is defined, and else of the base metric.
#[inline(always)]
pub fn effective<T: Copy>(modified: Option<Modified<T>>, base: Option<T>) -> Option<T>
    ensures { result ≡ effective modified base }
{
    match modified {
        Some(modified) => modified.or(base),
        None => base,
    }
}

/// The modified scope where it is defined, and else the scope.
#[inline(always)]
pub fn effective_scope(modified: Option<ModifiedScope>, base: Option<Scope>) -> Option<Scope>
    ensures { result ≡ effective_scope modified base }
{
    match modified {
        Some(ModifiedScope::Modified(scope)) => Some(scope),
        _ => base,
    }
}

/// Whether a scope is changed, which one that is absent is not.
#[inline(always)]
pub fn is_changed(scope: Option<Scope>) -> bool
    ensures { result ≡ is_scope_changed scope }
{
    match scope {
        Some(scope) => scope.is_changed(),
        None => false,
    }
}
