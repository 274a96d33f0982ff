//! What metrics of CVSS v4.0 count in.

ghost use Rattle.std.specs.Prelude.{◌≡◌, ◌≤◌, ◌+◌, ◌++◌, [], codes, is_some, length};
ghost use Rattle.std.specs.Fmt.{decimal};
ghost use Rattle.cvss_explain.specs.V4.{is_defined, levels_text, modified_of, replaced_by, value_counts};

use cvss_base::v4::MetricType;
use cvss_json::Page;
use cvss_report::spelled;
use cvss_score::v4::scoring::classes::MacroVector;
use cvss_vector::v4::Vector;

/// Writes the levels that a metric counts in; no supplemental metric counts.
pub(super) fn put_levels(class: &MacroVector, kind: MetricType, page: &mut Page)
    requires { page.old ≡ [] }
    ensures { page.new ≡ levels_text class.now kind }
{
    use MetricType::*;
    match kind {
        AV | PR | UI | MAV | MPR | MUI => put_level(b"EQ1:", class.eq1, page),
        AC | AT | MAC | MAT => put_level(b"EQ2:", class.eq2, page),
        VC | VI | VA | MVC | MVI | MVA => {
            put_level(b"EQ3:", class.eq3, page);
            put_level(b" EQ6:", class.eq6, page);
        }
        SC | SI | SA | MSC | MSI | MSA => put_level(b"EQ4:", class.eq4, page),
        E => put_level(b"EQ5:", class.eq5, page),
        CR | IR | AR => put_level(b"EQ6:", class.eq6, page),
        _ => page.push(b"-"),
    }
}

fn put_level(name: &[u8], level: u8, page: &mut Page)
    requires name { length name.now ≤ 5 }
    requires room { length page.old ≤ 100 }
    ensures text { page.new ≡ page.old ++ (name.now ++ decimal level) }
    ensures room { length page.new ≤ length page.old + 25 }
{
    page.push(name);
    page.whole(u64::from(level));
}

/// Whether the vector's value for a metric counts: that of a base metric if no modified metric
/// replaces it, and that of a modified metric if it is defined.
pub(super) fn value_counts(vector: &Vector, kind: MetricType) -> bool
    ensures { result ≡ value_counts vector.now kind }
{
    match modified_of(kind) {
        Some(modified) => !is_defined(vector, modified),
        None => !is_modified(kind) || is_defined(vector, kind),
    }
}

/// Whether the vector has a value for a metric other than Not Defined.
fn is_defined(vector: &Vector, kind: MetricType) -> bool
    ensures { result ≡ is_defined vector.now kind }
{
    match spelled(vector, kind) {
        Some(spelling) => !matches!(spelling, [b'X']),
        None => false,
    }
}

/// The modified metric that may replace a base metric.
fn modified_of(kind: MetricType) -> Option<MetricType>
    ensures { result ≡ modified_of kind }
{
    use MetricType::*;
    Some(match kind {
        AV => MAV,
        AC => MAC,
        AT => MAT,
        PR => MPR,
        UI => MUI,
        VC => MVC,
        VI => MVI,
        VA => MVA,
        SC => MSC,
        SI => MSI,
        SA => MSA,
        _ => return None,
    })
}

fn is_modified(kind: MetricType) -> bool
    ensures { result ≡ is_some (replaced_by kind) }
{
    use MetricType::*;
    matches!(
        kind,
        MAV | MAC | MAT | MPR | MUI | MVC | MVI | MVA | MSC | MSI | MSA
    )
}
