//! The values of a vector's metrics, as C sees them.

ghost use Rattle.std.specs.Prelude.{◌≡◌, ◌≤◌, [], ◌∷◌, length};
ghost use Rattle.std.specs.List.{repeat};
ghost use Rattle.cvss_vector.specs.Answers.{HasScore};
ghost use Rattle.cvss_base.specs.V4Types.{most_metrics};
ghost use Rattle.cvss_base.specs.Version.{held};
ghost use Rattle.cvss_ffi.specs.Buffer.{PutsFilled, begun};
ghost use Rattle.cvss_ffi.specs.Metrics.{padded as padded_text};
ghost use Rattle.cvss_ffi.specs.Values.{AreValuesIn, AreValuesOf, field_of, fields_of as fields_of_cvss, values_size};

use crate::buffer::write;
use crate::metrics::padded;
use crate::numbers::{nomenclature_of, version_number};
use crate::reading::read_vector;
use cvss_base::v2::MetricType as V2;
use cvss_base::v3::MetricType as V3;
use cvss_base::v4::{MOST_METRICS, MetricType as V4};
use cvss_report::spelled;
use cvss_text::print::Printed;
use cvss_vector::Cvss;

/// The version of a vector, its score, and the value of each of its metrics.
#[derive(Drop)]
#[repr(C)]
pub struct CvssValues {
    /// The number of bytes that the caller has for it.
    pub size: u32,
    /// 20, 30, 31 or 40.
    pub version: i32,
    /// The overall score in tenths, from 0 to 100, which counts all metrics in the vector.
    pub score: i32,
    /// Of CVSS v4.0 0 for CVSS-B, 1 CVSS-BE, 2 CVSS-BT, 3 CVSS-BTE; of other versions `NOTHING`.
    pub nomenclature: i32,
    /// How the value of each metric is spelled, filled up with bytes 0, the metrics in the order of
    /// canonical texts. A metric that the vector lacks has bytes 0.
    pub fields: [[u8; 8]; MOST_METRICS],
}

/// The number of bytes of the values of a vector.
const VALUES_SIZE: u32 = 272;

const _: () = prove!(size_of::<CvssValues>() == 272);

/// Writes the values of the vector that a text denotes, if there is one and the struct is large enough,
/// and returns whether it does.
pub fn values(text: &[u8], flags: u32, values: &mut CvssValues) -> bool
    ensures { PutsFilled values_size values.old.size (AreValuesIn flags text.now values.old.size)
        values.old values.new result }
{
    if values.size < VALUES_SIZE {
        return false;
    }
    let Some(cvss) = read_vector(text, flags) else {
        return false;
    };
    *values = CvssValues::of(&cvss, values.size);
    true
}

impl CvssValues {
    /// The values of a vector that has a score, in a struct of this size.
    fn of(cvss: &Cvss, size: u32) -> CvssValues
        requires { HasScore cvss.now }
        ensures { AreValuesOf size cvss.now result }
    {
        CvssValues {
            size,
            version: version_number(cvss),
            score: i32::from(cvss.overall_tenths()),
            nomenclature: nomenclature_of(cvss),
            fields: fields_of(cvss),
        }
    }
}

/// The field of each metric.
// Each metric by its name, and no loop: a metric that is constant is a jump less.
macro_rules! fields {
    (($vector:ident, $kinds:ident) $($name:ident $field:ident $values:ty,)*) => {
        [$(field_at($vector, $kinds::$name)),*]
    };
}

fn fields_of(cvss: &Cvss) -> [[u8; 8]; MOST_METRICS]
    ensures { result ≡ fields_of_cvss cvss.now }
{
    match cvss {
        Cvss::CvssV20(vector) => filled_up(&cvss_vector::each_v2_metric!(fields!(vector, V2))),
        Cvss::CvssV30(vector) | Cvss::CvssV31(vector) => {
            filled_up(&cvss_vector::each_v3_metric!(fields!(vector, V3)))
        }
        Cvss::CvssV40(vector) => cvss_vector::each_v4_metric!(fields!(vector, V4)),
    }
}

/// These fields and, up to the number of metrics of CVSS v4.0, fields of bytes 0.
fn filled_up(fields: &[[u8; 8]]) -> [[u8; 8]; MOST_METRICS]
    requires { length fields.now ≤ most_metrics }
    ensures { result ≡ begun fields.now (repeat most_metrics (padded_text [] ∷ [])) }
{
    let mut all = [[0; 8]; MOST_METRICS];
    write(fields, &mut all);
    all
}

/// The spelling of the value that a vector has for a metric, filled up with bytes 0.
#[inline(always)]
fn field_at<V: Printed>(vector: &V, kind: V::Kind) -> [u8; 8]
    ensures { result ≡ field_of (held V.version vector.now kind) }
{
    match spelled(vector, kind) {
        Some([letter]) => [*letter, 0, 0, 0, 0, 0, 0, 0],
        Some(value) => padded(value),
        None => [0; 8],
    }
}
