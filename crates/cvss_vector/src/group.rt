//! The groups of metrics that have scores of their own.

ghost use Rattle.std.specs.Prelude.{◌≡◌};
ghost use Rattle.cvss_vector.specs.Scores.{has_metrics};

use cvss_base::MetricGroup;

/// A group of metrics with a score of its own (v2 guide, section 3.2; v3.1 specification, section 7). Of
/// CVSS v4.0 only the base metrics have one, that of CVSS-B (specification, section 1.3).
#[derive(Clone, Copy)]
pub enum Group {
    Base,
    Temporal,
    Environmental,
}

impl Group {
    /// Whether optional metrics of a group belong to it.
    pub fn has_metrics(self, metrics: MetricGroup) -> bool
        ensures { result ≡ has_metrics self metrics }
    {
        matches!(
            (self, metrics),
            (Group::Temporal, MetricGroup::Temporal)
                | (Group::Environmental, MetricGroup::Environmental)
        )
    }
}
