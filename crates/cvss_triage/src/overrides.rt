//! Overrides: metrics that an organisation sets in the vectors of several versions.

ghost use Rattle.std.specs.Prelude.{◌≡◌, ◌++◌, ◌↔◌, IfOk, IsTrue, OnOk, map, option_map};
ghost use Rattle.cvss_triage.specs.Overrides.{HoldsForSome};
ghost use Rattle.cvss_triage.specs.Settings.{all_given, as_metrics, given, is_blank, is_blank_line, line_metrics, partial_vector, profile};

use crate::own_metrics::OwnMetrics;
use crate::settings::{SettingKind, SettingText};
use cvss_lines::first_line;
use std::alloc::{AllocError, Global};

/// Versions with the same metrics.
#[derive(Clone, Copy, Debug, PartialEq, Eq)]
pub enum Family {
    V2,
    /// CVSS v3.0 and v3.1.
    V3,
    V4,
}

/// Metrics that are set in the vectors for which they hold: whose versions have the metrics and their
/// values.
#[derive(Clone, Copy, Debug)]
pub struct Override<'a> {
    /// The versions for whose vectors the metrics are; `None` for those of all versions.
    pub family: Option<Family>,
    /// The metrics, as in a vector: `E:A`, or several as `CR:H/MAV:A`.
    pub metrics: &'a [u8],
}

impl<'a> Override<'a> {
    /// The override by metrics for the vectors of all versions.
    pub(crate) fn for_all_versions(metrics: &'a [u8]) -> Override<'a>
        ensures { as_metrics result ≡ (None, metrics.now) }
    {
        Override {
            family: None,
            metrics,
        }
    }

    /// The override by a line of a profile, if that is not blank.
    pub(crate) fn by_line(line: &'a [u8]) -> Option<Override<'a>>
        ensures { option_map as_metrics result ≡ line_metrics line.now }
    {
        if is_blank_line(line) {
            return None;
        }
        Some(Override::by_partial_vector(line))
    }

    /// The override by a partial vector, whose prefix says for which versions it is.
    fn by_partial_vector(line: &'a [u8]) -> Override<'a>
        ensures { as_metrics result ≡ partial_vector line.now }
    {
        if line.starts_with(b"CVSS:4.0/") {
            Override {
                family: Some(Family::V4),
                metrics: &line[9..],
            }
        } else if line.starts_with(b"CVSS:3.1/") || line.starts_with(b"CVSS:3.0/") {
            Override {
                family: Some(Family::V3),
                metrics: &line[9..],
            }
        } else {
            Override {
                family: Some(Family::V2),
                metrics: line,
            }
        }
    }

    /// Whether the override holds for the vectors of some family.
    pub(crate) fn holds_for_some(self) -> bool
        ensures { IsTrue result ↔ HoldsForSome self.entry }
    {
        OwnMetrics::none().set(self)
    }
}

/// The overrides that the texts of settings give, in their order.
///
/// # Errors
///
/// Out of memory.
pub(crate) fn overrides_of<'a>(
    alloc: Global,
    texts: &'a [SettingText<'_>],
) -> Result<Vec<Override<'a>>, AllocError>
    ensures { IfOk result (λ overrides. map as_metrics overrides.items ≡ all_given texts.now) }
{
    let mut overrides = Vec::new(alloc);
    for text in texts {
        push_given(text, &mut overrides)?;
    }
    Ok(overrides)
}

fn push_given<'a>(
    it: &'a SettingText<'_>,
    overrides: &mut Vec<Override<'a>>,
) -> Result<(), AllocError>
    ensures { OnOk result (map as_metrics overrides.new.items
        ≡ map as_metrics overrides.old.items ++ given it.now) }
{
    match (&it.setting.kind, &it.text) {
        (_, None) => Ok(()),
        (SettingKind::Metrics, Some(text)) => Ok(overrides.push(Override::for_all_versions(text))?),
        (SettingKind::Profile, Some(text)) => push_profile(text, overrides),
    }
}

/// Appends the overrides by the lines of a profile.
fn push_profile<'a>(text: &'a [u8], overrides: &mut Vec<Override<'a>>) -> Result<(), AllocError>
    ensures { OnOk result (map as_metrics overrides.new.items
        ≡ map as_metrics overrides.old.items ++ profile text.now) }
{
    let mut left = text;
    while let Some((line, rest)) = first_line(left) {
        if let Some(it) = Override::by_line(line) {
            overrides.push(it)?;
        }
        left = rest;
    }
    Ok(())
}

fn is_blank_line(line: &[u8]) -> bool
    ensures { result ≡ is_blank_line line.now }
{
    line.iter().all(|byte| is_blank(*byte))
}

fn is_blank(byte: u8) -> bool
    ensures { result ≡ is_blank byte }
{
    byte == b' ' || byte == b'\t'
}
