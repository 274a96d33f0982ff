//! The metric types of CVSS v4.0 (v4.0 specification, sections 2 to 5).

ghost use Rattle.std.specs.Prelude.{◌≡◌, IfOk, IfErr, Ok, Some};
ghost use Rattle.std.proofs.Common.{rules};
ghost use Rattle.cvss_base.specs.Rejection.{UnknownName};
ghost use Rattle.cvss_base.specs.Reported.{Reports};
ghost use Rattle.cvss_base.specs.V4Types.{v4_reason, row_of, name_of, description_of, group_of, words_of, declared};

use crate::error::Error;
use crate::group::MetricGroup::{self, Base, Environmental, Supplemental, Threat};
use crate::named::{MetricFacts, Named, from_name, row};
use MetricType::*;
use std::alloc::Global;
use std::fmt;

/// A metric of CVSS v4.0.
#[derive(Clone, Copy, Debug, PartialEq, Eq, PartialOrd, Ord)]
pub enum MetricType {
    AC,
    AT,
    AV,
    PR,
    SA,
    SC,
    SI,
    UI,
    VA,
    VC,
    VI,
    E,
    AR,
    CR,
    IR,
    MAC,
    MAT,
    MAV,
    MPR,
    MSA,
    MSC,
    MSI,
    MUI,
    MVA,
    MVC,
    MVI,
    AU,
    R,
    RE,
    S,
    U,
    V,
}

/// The number of metrics of CVSS v4.0. No other version has as many.
pub const MOST_METRICS: usize = 32;

/// The metric types as they are declared.
const ALL: [MetricType; MOST_METRICS] = [
    AC, AT, AV, PR, SA, SC, SI, UI, VA, VC, VI, E, AR, CR, IR, MAC, MAT, MAV, MPR, MSA, MSC, MSI,
    MUI, MVA, MVC, MVI, AU, R, RE, S, U, V,
];

/// The abbreviation of each metric type, its name in words and its group, as they are declared.
const ROWS: [MetricFacts; MOST_METRICS] = [
    row!(v4 Base AC "Attack Complexity"),
    row!(v4 Base AT "Attack Requirements"),
    row!(v4 Base AV "Attack Vector"),
    row!(v4 Base PR "Privileges Required"),
    row!(v4 Base SA "Availability Impact to the Subsequent System"),
    row!(v4 Base SC "Confidentiality Impact to the Subsequent System"),
    row!(v4 Base SI "Integrity Impact to the Subsequent System"),
    row!(v4 Base UI "User Interaction"),
    row!(v4 Base VA "Availability Impact to the Vulnerable System"),
    row!(v4 Base VC "Confidentiality Impact to the Vulnerable System"),
    row!(v4 Base VI "Integrity Impact to the Vulnerable System"),
    row!(v4 Threat E "Exploit Maturity"),
    row!(v4 Environmental AR "Availability Requirements"),
    row!(v4 Environmental CR "Confidentiality Requirements"),
    row!(v4 Environmental IR "Integrity Requirements"),
    row!(v4 Environmental MAC "Modified Attack Complexity"),
    row!(v4 Environmental MAT "Modified Attack Requirements"),
    row!(v4 Environmental MAV "Modified Attack Vector"),
    row!(v4 Environmental MPR "Modified Privileges Required"),
    row!(v4 Environmental MSA "Modified Availability Impact to the Subsequent System"),
    row!(v4 Environmental MSC "Modified Confidentiality Impact to the Subsequent System"),
    row!(v4 Environmental MSI "Modified Integrity Impact to the Subsequent System"),
    row!(v4 Environmental MUI "Modified User Interaction"),
    row!(v4 Environmental MVA "Modified Availability Impact to the Vulnerable System"),
    row!(v4 Environmental MVC "Modified Confidentiality Impact to the Vulnerable System"),
    row!(v4 Environmental MVI "Modified Integrity Impact to the Vulnerable System"),
    row!(v4 Supplemental AU "Automatable"),
    row!(v4 Supplemental R "Recovery"),
    row!(v4 Supplemental RE "Vulnerability Response Effort"),
    row!(v4 Supplemental S "Safety"),
    row!(v4 Supplemental U "Provider Urgency"),
    row!(v4 Supplemental V "Value Density"),
];

impl MetricType {
    /// The abbreviation that stands for the metric in a vector (v4.0 specification, section 7).
    pub fn name(self) -> &'static str
        ensures { result.now ≡ name_of self }
    {
        self.row().0
    }

    /// The metric's name in words.
    pub fn description(self) -> &'static str
        ensures { result.now ≡ description_of self }
    {
        self.row().1
    }

    /// The group to which the metric belongs (v4.0 specification, sections 2 to 5).
    pub fn group(self) -> MetricGroup
        ensures { result ≡ group_of self }
    {
        self.row().2
    }

    /// The metric type with this abbreviation, exactly as it is written.
    ///
    /// # Errors
    ///
    /// `UnknownMetric` with the text where no metric has this name.
    pub fn from_str(alloc: Global, text: &str) -> Result<MetricType, Error>
        ensures named { IfOk result (λ kind. name_of kind ≡ text.now) }
        ensures read { (kind : MetricType) → name_of kind ≡ text.now → result ≡ Ok kind }
        ensures rejected { IfErr result (Reports v4_reason (UnknownName text.now)) }
    {
        from_name(alloc, &ALL, text)
    }

    /// All metrics, in the order in which they are compared.
    pub fn all() -> &'static [MetricType]
        ensures { result.now ≡ declared }
    {
        &ALL
    }
}

impl Named for MetricType {
    ghost row_of = { row_of };

    ghost words_of = { words_of };

    ghost declared = { declared };

    ghost first = { Prim.search rules };

    fn row(self) -> MetricFacts {
        let row = &ROWS[self as usize];
        *row
    }
}

impl fmt::Display for MetricType {
    ghost output = { λ kind. Some (name_of kind) };

    ghost styled_output = { λ kind _. Some (name_of kind) };

    fn fmt<W: fmt::Write>(&self, f: &mut fmt::Formatter<W>) -> fmt::Result {
        f.write_str(self.name())
    }
}
