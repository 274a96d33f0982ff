//! How a vector is printed, and its metrics as a list.

ghost use Rattle.std.specs.Prelude.{◌≡◌, ◌++◌, Some, codes, option_copied, option_map};
ghost use Rattle.std.specs.Fmt.{WritesOnOk};
ghost use Rattle.cvss_base.specs.Version.{canonical_text, held, numeral, version_piece};
ghost use Rattle.cvss_text.specs.Listing.{listed_metrics, metrics_left};
ghost use Rattle.cvss_metric.specs.v3.Table.{listed};
ghost use Rattle.cvss_vector.specs.v3.Vector.{v3};

use crate::each_v3_metric;
use crate::v3::vector::Vector;
use MetricType::*;
use cvss_metric::v3::MetricType;
use cvss_text::buffer::TextBuffer;
use cvss_text::metrics::{self, Listed};
use cvss_text::print::{Printed, write_components};
use cvss_text::values::{Spells, write_value};
use cvss_text::{show_at, write_each};
use std::fmt;

/// The metrics that a vector has, each with the spelling of its value; at most 22.
pub type Metrics = metrics::Metrics<Vector>;

/// The metrics in the order in which they are listed.
const LISTED: [MetricType; 22] = [
    AV, AC, PR, UI, S, C, I, A, E, RL, RC, MAV, MAC, MPR, MUI, MS, MC, MI, CR, IR, AR, MA,
];

impl Listed for Vector {
    ghost order = { listed };

    fn listed() -> &'static [MetricType] {
        &LISTED
    }
}

impl Printed for Vector {
    fn spelling(&self, kind: MetricType) -> Option<&'static str> {
        each_v3_metric!(show_at!(kind: MetricType, shown_at::<Vector>(self)))
    }

    fn write_each(&self, buffer: &mut TextBuffer) {
        each_v3_metric!(write_each!(write_value::<Vector>(self, buffer)));
    }
}

impl Vector {
    /// The type and the spelling of each metric that the vector has. It takes no memory.
    pub fn metrics(&self) -> Metrics
        ensures { metrics_left v3 listed result ≡ listed_metrics v3 self.now listed }
    {
        Metrics::of(self)
    }

    /// Writes the piece that says the version.
    #[tactic(auto, using(cvss_text::proofs::NumeralLemmas::decimal_numeral))]
    fn write_version<W: fmt::Write>(&self, f: &mut fmt::Formatter<W>) -> fmt::Result
        ensures { WritesOnOk W.write_str_gives f.old result
            (version_piece (codes "3." ++ numeral self.now.minor_version)) f.new }
    {
        match self.minor_version {
            0 => f.write_str("CVSS:3.0"),
            1 => f.write_str("CVSS:3.1"),
            other => write!(f, "CVSS:3.{other}"),
        }
    }
}

impl fmt::Display for Vector {
    ghost output = { λ vector. Some (canonical_text v3 vector) };

    fn fmt<W: fmt::Write>(&self, f: &mut fmt::Formatter<W>) -> fmt::Result {
        self.write_version(f)?;
        write_components(self, f)
    }
}

/// How the value that a vector has for a metric is spelled.
// It is not generic in the vector, whose traits the proof of each call would have to show.
fn shown_at<V: Spells<M>, M: Copy>(
    vector: &Vector,
    kind: MetricType,
    here: MetricType,
    value: Option<M>,
) -> Option<&'static str>
    requires here { kind ≡ here }
    requires value { held v3 vector.now here ≡ option_map V.spelling value }
    ensures { option_copied result ≡ held v3 vector.now kind }
{
    Some(V::spelling(value?))
}
