//! The groups of metrics (v2 guide, section 2; v3.1 specification, sections 2 to 4; v4.0 specification,
//! sections 2 to 5).

/// A group of metrics. Each version has base and environmental metrics.
#[derive(Clone, Copy, Debug, PartialEq, Eq)]
pub enum MetricGroup {
    Base,
    /// In CVSS v2 and v3 alone.
    Temporal,
    /// In CVSS v4.0 alone, where it replaces the temporal group.
    Threat,
    Environmental,
    /// In CVSS v4.0 alone.
    Supplemental,
}
