//! The names of a metric type, and the type that is looked up by its name, once for all versions.

ghost use Rattle.std.specs.Prelude.{◌≡◌, IfOk, IfErr, IfSome, Some, Ok, ℕ, List, Option, find, bytes_eq};
ghost use Rattle.cvss_base.specs.Rejection.{Rejection, UnknownName};
ghost use Rattle.cvss_base.specs.Reported.{Reports};
ghost use Rattle.cvss_base.specs.declared.group.MetricGroup.{MetricGroup};

use crate::error::Error;
use crate::group::MetricGroup;
use std::alloc::Global;

/// The abbreviation, the name in words, the group, and the metric as messages have it.
pub type MetricFacts = (&'static str, &'static str, MetricGroup, &'static str);

/// The facts of a metric, by its version, group, abbreviation and name in words.
macro_rules! row {
    ($version:ident $group:ident $name:ident $words:literal) => {
        (
            stringify!($name),
            $words,
            $group,
            concat!("CVSS", stringify!($version), " ", stringify!($name), " (", $words, ") metric"),
        )
    };
}

pub(crate) use row;

/// A metric type of some version.
pub trait Named: Copy + 'static {
    ghost row_of: { Self → List ℕ × List ℕ × MetricGroup };

    ghost words_of: { Self → List ℕ };

    ghost declared: { List Self };

    fn row(self) -> MetricFacts
        ensures abbreviation { result.0.now ≡ (row_of self).0 }
        ensures words { result.1.now ≡ (row_of self).1 }
        ensures group { result.2 ≡ (row_of self).2 }
        ensures message { result.3.now ≡ words_of self };

    // Each is the first of its abbreviation.
    ghost first: { (kind : Self)
        → find (λ other. bytes_eq (row_of other).0 (row_of kind).0) declared ≡ Some kind };
}

/// The metric type with this name, exactly as it is written, where all metric types are given.
fn kind_of<N: Named>(all: &[N], name: &str) -> Option<N>
    requires { all.now ≡ N.declared }
    ensures named { IfSome result (λ kind. (N.row_of kind).0 ≡ name.now) }
    ensures read { (kind : N) → (N.row_of kind).0 ≡ name.now → result ≡ Some kind }
{
    all.iter().copied().find(|kind| kind.row().0 == name)
}

/// The metric type with this name, exactly as it is written, or the error that there is none, where
/// all metric types are given.
pub(crate) fn from_name<N: Named>(alloc: Global, all: &[N], name: &str) -> Result<N, Error>
    requires { all.now ≡ N.declared }
    ensures named { IfOk result (λ kind. (N.row_of kind).0 ≡ name.now) }
    ensures read { (kind : N) → (N.row_of kind).0 ≡ name.now → result ≡ Ok kind }
    ensures rejected { IfErr result (λ error. (own : Error → Option (Rejection N))
        → Reports own (UnknownName name.now) error) }
{
    match kind_of(all, name) {
        Some(kind) => Ok(kind),
        None => Err(Error::UnknownMetric {
            name: String::from_str(alloc, name)?,
        }),
    }
}
