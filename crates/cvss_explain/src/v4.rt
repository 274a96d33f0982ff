//! The explanation of a score of CVSS v4.0 (specification, section 8.2).

ghost use Rattle.std.specs.Prelude.{◌≡◌, []};
ghost use Rattle.cvss_base.specs.Version.{IsComplete};
ghost use Rattle.cvss_explain.specs.V4.{IsExplanationText};
ghost use Rattle.cvss_vector.specs.v4.Vector.{v4};

mod effect;
mod effective;
mod lines;

use crate::groups::fraction;
use crate::parts::{Value, VectorParts};
use cvss_json::{Page, Scalar, put_object};
use cvss_vector::Cvss;
use cvss_vector::v4::Vector;
pub(crate) use effective::{EFFECTIVE, Letters};
pub(crate) use lines::{put_group, write_lines};

/// Writes why a complete vector has its score.
pub(crate) fn put_explanation(
    page: &mut Page,
    line: Option<u64>,
    cvss: &Cvss,
    vector: &Vector,
    tenths: u8,
)
    requires complete { IsComplete v4 vector.now }
    requires empty { page.old ≡ [] }
    ensures { IsExplanationText line cvss.now vector.now tenths page.new }
{
    let explanation = vector.explanation();
    let mean = fraction(explanation.mean, 504_000);
    let number = fraction(explanation.number, 504_000);
    let nomenclature = vector.nomenclature().as_str();
    put_object(
        page,
        &VectorParts { cvss },
        &[
            ("effective", Value::Letters(explanation.effective)),
            ("groups", Value::Groups(&explanation)),
            ("line", Value::Line(line)),
            ("macroVector", Value::Class(explanation.class)),
            ("mean", Value::Scalar(mean)),
            ("nomenclature", Value::Scalar(Scalar::Text(nomenclature))),
            ("number", Value::Scalar(number)),
            ("score", Value::Scalar(Scalar::Tenths(tenths))),
            ("severity", Value::Severity(tenths)),
            ("value", Value::Scalar(Scalar::Tenths(explanation.value))),
            ("vector", Value::Text),
            ("version", Value::Version),
        ],
    );
}
