//! How a vector is printed, and its metrics as a list.

ghost use Rattle.std.specs.Prelude.{◌≡◌, [], Some, option_copied, option_map};
ghost use Rattle.cvss_base.specs.Version.{canonical_text, held};
ghost use Rattle.cvss_text.specs.Listing.{listed_metrics, metrics_left};
ghost use Rattle.cvss_metric.specs.v2.Table.{listed};
ghost use Rattle.cvss_vector.specs.v2.Vector.{v2};

use crate::each_v2_metric;
use crate::v2::vector::Vector;
use MetricType::*;
use cvss_metric::v2::MetricType;
use cvss_text::buffer::TextBuffer;
use cvss_text::metrics::{self, Listed};
use cvss_text::print::{Printed, write_text};
use cvss_text::values::{Spells, write_value};
use cvss_text::{show_at, write_each};
use std::fmt;

/// The metrics that a vector has, each with the spelling of its value; at most 14.
pub type Metrics = metrics::Metrics<Vector>;

/// The metrics in the order in which they are listed.
const LISTED: [MetricType; 14] = [AC, Au, AV, C, I, A, CR, IR, AR, CDP, TD, E, RC, RL];

impl Listed for Vector {
    ghost order = { listed };

    fn listed() -> &'static [MetricType] {
        &LISTED
    }
}

impl Printed for Vector {
    fn spelling(&self, kind: MetricType) -> Option<&'static str> {
        each_v2_metric!(show_at!(kind: MetricType, shown_at::<Vector>(self)))
    }

    fn write_each(&self, buffer: &mut TextBuffer) {
        each_v2_metric!(write_each!(write_value::<Vector>(self, buffer)));
    }
}

impl Vector {
    /// The type and the spelling of each metric that the vector has. It takes no memory.
    pub fn metrics(&self) -> Metrics
        ensures { metrics_left v2 listed result ≡ listed_metrics v2 self.now listed }
    {
        Metrics::of(self)
    }

    /// Writes the canonical text into an empty buffer, and gives it.
    pub fn text<'a>(&self, buffer: &'a mut TextBuffer) -> &'a [u8]
        requires { buffer.old ≡ [] }
        ensures { result.now ≡ canonical_text v2 self.now }
    {
        self.write_metrics(buffer);
        buffer.after_first()
    }
}

impl fmt::Display for Vector {
    ghost output = { λ vector. Some (canonical_text v2 vector) };

    fn fmt<W: fmt::Write>(&self, f: &mut fmt::Formatter<W>) -> fmt::Result {
        write_text(self.text(&mut TextBuffer::new()), f)
    }
}

/// How the value that a vector has for a metric is spelled.
// It is not generic in the vector, whose traits the proof of each call would have to show.
fn shown_at<V: Spells<M>, M: Copy>(
    vector: &Vector,
    kind: MetricType,
    here: MetricType,
    value: Option<M>,
) -> Option<&'static str>
    requires here { kind ≡ here }
    requires value { held v2 vector.now here ≡ option_map V.spelling value }
    ensures { option_copied result ≡ held v2 vector.now kind }
{
    Some(V::spelling(value?))
}
