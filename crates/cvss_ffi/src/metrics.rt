//! The metrics of a vector, as C sees them.

ghost use Rattle.std.specs.Prelude.{◌≡◌, ◌≤◌, length};
ghost use Rattle.cvss_base.specs.V4Types.{most_metrics};
ghost use Rattle.cvss_ffi.specs.Accepted.{WritesOf};
ghost use Rattle.cvss_ffi.specs.Buffer.{IsWritten};
ghost use Rattle.cvss_ffi.specs.Metrics.{metrics_at, metrics_in_order, padded as padded_text};

use crate::buffer::write;
use crate::reading::read_vector;
use cvss_base::v4::MOST_METRICS;
use cvss_report::spelled;
use cvss_text::print::Printed;
use cvss_vector::Cvss;

/// A metric of a vector. Each text is in eight bytes, with bytes 0 after it.
#[derive(Clone, Copy)]
#[repr(C)]
pub struct CvssMetric {
    /// The metric's abbreviation, as written in a vector.
    pub name: [u8; 8],
    /// How its value is spelled.
    pub value: [u8; 8],
}

/// The first bytes of a text in eight bytes, with bytes 0 after them.
pub(crate) fn padded(text: &[u8]) -> [u8; 8]
    ensures { result ≡ padded_text text.now }
{
    let mut field = [0; 8];
    let first = if text.len() > 8 { &text[..8] } else { text };
    write(first, &mut field);
    field
}

/// Writes the metrics of the vector that a text denotes, if there is one, and returns their number.
pub fn metrics(text: &[u8], flags: u32, metrics: &mut [CvssMetric]) -> usize
    ensures { WritesOf flags text.now (λ cvss. IsWritten (metrics_in_order cvss))
        metrics.old metrics.new result }
{
    match read_vector(text, flags) {
        Some(cvss) => write_metrics_of(&cvss, metrics),
        None => 0,
    }
}

/// Writes the metrics that a vector has, in the order of its canonical text.
fn write_metrics_of(cvss: &Cvss, metrics: &mut [CvssMetric]) -> usize
    ensures { IsWritten (metrics_in_order cvss.now) metrics.old metrics.new result }
{
    match cvss {
        Cvss::CvssV20(vector) => write_metrics(vector, metrics),
        Cvss::CvssV30(vector) | Cvss::CvssV31(vector) => write_metrics(vector, metrics),
        Cvss::CvssV40(vector) => write_metrics(vector, metrics),
    }
}

/// Writes the metrics that a vector of some version has, in printing order.
fn write_metrics<V: Printed>(vector: &V, metrics: &mut [CvssMetric]) -> usize
    requires { length V.version.printed ≤ most_metrics }
    ensures { IsWritten (metrics_at V.version vector.now V.version.printed) metrics.old metrics.new
        result }
{
    let mut own = [CvssMetric {
        name: [0; 8],
        value: [0; 8],
    }; MOST_METRICS];
    let mut count = 0;
    for kind in V::printed() {
        if let Some(value) = spelled(vector, *kind) {
            own[count] = CvssMetric {
                name: padded(V::name(*kind).as_bytes()),
                value: padded(value),
            };
            count += 1;
        }
    }
    write(&own[..count], metrics)
}
