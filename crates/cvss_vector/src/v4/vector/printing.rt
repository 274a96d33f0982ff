//! How a vector is printed, and its metrics as a list.

ghost use Rattle.std.specs.Prelude.{◌≡◌, ◌++◌, Some, codes, option_copied, option_map};
ghost use Rattle.std.specs.Fmt.{WritesOnOk};
ghost use Rattle.cvss_base.specs.V4Types.{declared};
ghost use Rattle.cvss_base.specs.Version.{canonical_text, held, numeral, version_piece};
ghost use Rattle.cvss_text.specs.Listing.{listed_metrics, metrics_left};
ghost use Rattle.cvss_vector.specs.v4.Vector.{v4};

use crate::each_v4_metric;
use crate::v4::vector::Vector;
use cvss_metric::v4::MetricType;
use cvss_text::buffer::TextBuffer;
use cvss_text::metrics::{self, Listed};
use cvss_text::print::{Printed, write_components};
use cvss_text::values::{Spells, write_value};
use cvss_text::{show_at, write_each};
use std::fmt;

/// The metrics that a vector has, each with the spelling of its value.
pub type Metrics = metrics::Metrics<Vector>;

impl Listed for Vector {
    ghost order = { declared };

    fn listed() -> &'static [MetricType] {
        MetricType::all()
    }
}

impl Printed for Vector {
    fn spelling(&self, kind: MetricType) -> Option<&'static str> {
        each_v4_metric!(show_at!(kind: MetricType, shown_at::<Vector>(self)))
    }

    fn write_each(&self, buffer: &mut TextBuffer) {
        each_v4_metric!(write_each!(write_value::<Vector>(self, buffer)));
    }
}

impl Vector {
    /// The type and the spelling of each metric that the vector has. It takes no memory.
    pub fn metrics(&self) -> Metrics
        ensures { metrics_left v4 declared result ≡ listed_metrics v4 self.now declared }
    {
        Metrics::of(self)
    }

    /// Writes the piece that says the version.
    #[tactic(auto, using(cvss_text::proofs::NumeralLemmas::decimal_numeral))]
    fn write_version<W: fmt::Write>(&self, f: &mut fmt::Formatter<W>) -> fmt::Result
        ensures { WritesOnOk W.write_str_gives f.old result
            (version_piece (codes "4." ++ numeral self.now.minor_version)) f.new }
    {
        match self.minor_version {
            0 => f.write_str("CVSS:4.0"),
            other => write!(f, "CVSS:4.{other}"),
        }
    }
}

impl fmt::Display for Vector {
    ghost output = { λ vector. Some (canonical_text v4 vector) };

    fn fmt<W: fmt::Write>(&self, f: &mut fmt::Formatter<W>) -> fmt::Result {
        self.write_version(f)?;
        write_components(self, f)
    }
}

// The text reports more than the places of the values.
impl fmt::Debug for Vector {
    ghost debug_output = { λ vector. Some (canonical_text v4 vector) };

    fn fmt<W: fmt::Write>(&self, f: &mut fmt::Formatter<W>) -> fmt::Result {
        write!(f, "{self}")
    }
}

/// How the value that a vector has for a metric is spelled.
// It is not generic in the vector, whose traits the proof of each call would have to show.
fn shown_at<V: Spells<M>, M: Copy>(
    vector: &Vector,
    kind: MetricType,
    here: MetricType,
    value: Option<M>,
) -> Option<&'static str>
    requires here { kind ≡ here }
    requires value { held v4 vector.now here ≡ option_map V.spelling value }
    ensures { option_copied result ≡ held v4 vector.now kind }
{
    Some(V::spelling(value?))
}
