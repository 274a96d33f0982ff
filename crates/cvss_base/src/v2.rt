//! The metric types of CVSS v2 (guide, section 2).

ghost use Rattle.std.specs.Prelude.{◌≡◌, IfOk, IfErr, Ok, Some};
ghost use Rattle.std.proofs.Common.{rules};
ghost use Rattle.cvss_base.specs.Rejection.{UnknownName};
ghost use Rattle.cvss_base.specs.Reported.{Reports};
ghost use Rattle.cvss_base.specs.V2Types.{v2_reason, row_of, name_of, description_of, group_of, words_of, declared};

use crate::error::Error;
use crate::group::MetricGroup::{self, Base, Environmental, Temporal};
use crate::named::{MetricFacts, Named, from_name, row};
use MetricType::*;
use std::alloc::Global;
use std::fmt;

/// One of the fourteen metrics of CVSS v2.
#[derive(Clone, Copy, Debug, PartialEq, Eq, PartialOrd, Ord)]
pub enum MetricType {
    A,
    AC,
    AV,
    Au,
    C,
    I,
    E,
    RL,
    RC,
    CDP,
    TD,
    CR,
    IR,
    AR,
}

/// The metric types as they are declared.
const ALL: [MetricType; 14] = [A, AC, AV, Au, C, I, E, RL, RC, CDP, TD, CR, IR, AR];

/// The abbreviation of each metric type, its name in words and its group, as they are declared.
const ROWS: [MetricFacts; 14] = [
    row!(v2 Base A "Availability Impact"),
    row!(v2 Base AC "Access Complexity"),
    row!(v2 Base AV "Access Vector"),
    row!(v2 Base Au "Authentication"),
    row!(v2 Base C "Confidentiality Impact"),
    row!(v2 Base I "Integrity Impact"),
    row!(v2 Temporal E "Exploitability"),
    row!(v2 Temporal RL "Remediation Level"),
    row!(v2 Temporal RC "Report Confidence"),
    row!(v2 Environmental CDP "Collateral Damage Potential"),
    row!(v2 Environmental TD "Target Distribution"),
    row!(v2 Environmental CR "Confidentiality Requirement"),
    row!(v2 Environmental IR "Integrity Requirement"),
    row!(v2 Environmental AR "Availability Requirement"),
];

impl MetricType {
    /// The abbreviation that stands for the metric in a vector (guide, section 2.4).
    pub fn name(self) -> &'static str
        ensures { result.now ≡ name_of self }
    {
        self.row().0
    }

    /// The metric's name in words.
    pub fn description(self) -> &'static str
        ensures { result.now ≡ description_of self }
    {
        self.row().1
    }

    /// The group to which the metric belongs (guide, sections 2.1 to 2.3).
    pub fn group(self) -> MetricGroup
        ensures { result ≡ group_of self }
    {
        self.row().2
    }

    /// The metric type with this abbreviation, exactly as it is written.
    ///
    /// # Errors
    ///
    /// `UnknownMetric` with the text where no metric has this name.
    pub fn from_str(alloc: Global, text: &str) -> Result<MetricType, Error>
        ensures named { IfOk result (λ kind. name_of kind ≡ text.now) }
        ensures read { (kind : MetricType) → name_of kind ≡ text.now → result ≡ Ok kind }
        ensures rejected { IfErr result (Reports v2_reason (UnknownName text.now)) }
    {
        from_name(alloc, &ALL, text)
    }
}

impl Named for MetricType {
    ghost row_of = { row_of };

    ghost words_of = { words_of };

    ghost declared = { declared };

    ghost first = { Prim.search rules };

    fn row(self) -> MetricFacts {
        let row = &ROWS[self as usize];
        *row
    }
}

impl fmt::Display for MetricType {
    ghost output = { λ kind. Some (name_of kind) };

    ghost styled_output = { λ kind _. Some (name_of kind) };

    fn fmt<W: fmt::Write>(&self, f: &mut fmt::Formatter<W>) -> fmt::Result {
        f.write_str(self.name())
    }
}
