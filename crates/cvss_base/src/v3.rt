//! The metric types of CVSS v3.0 and v3.1 (v3.1 specification, sections 2 to 4).

ghost use Rattle.std.specs.Prelude.{◌≡◌, IfOk, IfErr, Ok, Some};
ghost use Rattle.std.proofs.Common.{rules};
ghost use Rattle.cvss_base.specs.Rejection.{UnknownName};
ghost use Rattle.cvss_base.specs.Reported.{Reports};
ghost use Rattle.cvss_base.specs.V3Types.{v3_reason, row_of, name_of, description_of, group_of, words_of, declared};

use crate::error::Error;
use crate::group::MetricGroup::{self, Base, Environmental, Temporal};
use crate::named::{MetricFacts, Named, from_name, row};
use MetricType::*;
use std::alloc::Global;
use std::fmt;

/// One of the twenty-two metrics of CVSS v3.0 and v3.1.
#[derive(Clone, Copy, Debug, PartialEq, Eq, PartialOrd, Ord)]
pub enum MetricType {
    A,
    AC,
    AV,
    C,
    I,
    PR,
    S,
    UI,
    E,
    RL,
    RC,
    CR,
    IR,
    AR,
    MAV,
    MAC,
    MPR,
    MUI,
    MS,
    MC,
    MI,
    MA,
}

/// The metric types as they are declared.
const ALL: [MetricType; 22] = [
    A, AC, AV, C, I, PR, S, UI, E, RL, RC, CR, IR, AR, MAV, MAC, MPR, MUI, MS, MC, MI, MA,
];

/// The abbreviation of each metric type, its name in words and its group, as they are declared.
const ROWS: [MetricFacts; 22] = [
    row!(v3 Base A "Availability Impact"),
    row!(v3 Base AC "Attack Complexity"),
    row!(v3 Base AV "Attack Vector"),
    row!(v3 Base C "Confidentiality Impact"),
    row!(v3 Base I "Integrity Impact"),
    row!(v3 Base PR "Privileges Required"),
    row!(v3 Base S "Scope"),
    row!(v3 Base UI "User Interaction"),
    row!(v3 Temporal E "Exploit Code Maturity"),
    row!(v3 Temporal RL "Remediation Level"),
    row!(v3 Temporal RC "Report Confidence"),
    row!(v3 Environmental CR "Confidentiality Requirements"),
    row!(v3 Environmental IR "Integrity Requirements"),
    row!(v3 Environmental AR "Availability Requirements"),
    row!(v3 Environmental MAV "Modified Attack Vector"),
    row!(v3 Environmental MAC "Modified Attack Complexity"),
    row!(v3 Environmental MPR "Modified Privileges Required"),
    row!(v3 Environmental MUI "Modified User Interaction"),
    row!(v3 Environmental MS "Modified Scope"),
    row!(v3 Environmental MC "Modified Confidentiality"),
    row!(v3 Environmental MI "Modified Integrity"),
    row!(v3 Environmental MA "Modified Availability"),
];

impl MetricType {
    /// The abbreviation that stands for the metric in a vector (v3.1 specification, section 6).
    pub fn name(self) -> &'static str
        ensures { result.now ≡ name_of self }
    {
        self.row().0
    }

    /// The metric's name in words.
    pub fn description(self) -> &'static str
        ensures { result.now ≡ description_of self }
    {
        self.row().1
    }

    /// The group to which the metric belongs (v3.1 specification, sections 2 to 4).
    pub fn group(self) -> MetricGroup
        ensures { result ≡ group_of self }
    {
        self.row().2
    }

    /// The metric type with this abbreviation, exactly as it is written.
    ///
    /// # Errors
    ///
    /// `UnknownMetric` with the text where no metric has this name.
    pub fn from_str(alloc: Global, text: &str) -> Result<MetricType, Error>
        ensures named { IfOk result (λ kind. name_of kind ≡ text.now) }
        ensures read { (kind : MetricType) → name_of kind ≡ text.now → result ≡ Ok kind }
        ensures rejected { IfErr result (Reports v3_reason (UnknownName text.now)) }
    {
        from_name(alloc, &ALL, text)
    }
}

impl Named for MetricType {
    ghost row_of = { row_of };

    ghost words_of = { words_of };

    ghost declared = { declared };

    ghost first = { Prim.search rules };

    fn row(self) -> MetricFacts {
        let row = &ROWS[self as usize];
        *row
    }
}

impl fmt::Display for MetricType {
    ghost output = { λ kind. Some (name_of kind) };

    ghost styled_output = { λ kind _. Some (name_of kind) };

    fn fmt<W: fmt::Write>(&self, f: &mut fmt::Formatter<W>) -> fmt::Result {
        f.write_str(self.name())
    }
}
