//! The canonical text of a vector, written without memory.

ghost use Rattle.std.specs.Prelude.{◌≡◌, ◌+◌, ◌≤◌, [], ◌∷◌, ◌++◌, length, ◌*◌};
ghost use Rattle.std.specs.Option.{option_copied};
ghost use Rattle.cvss_vector.specs.Answers.{text_of};
ghost use Rattle.cvss_base.specs.V4Types.{most_metrics};
ghost use Rattle.cvss_base.specs.Version.{canonical_text, held, numeral};
ghost use Rattle.cvss_text.specs.private.Printing.{texts_with_slash};

use cvss_json::Page;
use cvss_text::print::Printed;
use cvss_vector::{Cvss, TextBuffer};

/// Writes a vector's canonical text.
pub fn put_vector(page: &mut Page, cvss: &Cvss)
    requires { length page.old + 350 ≤ 4096 }
    ensures text { page.new ≡ page.old ++ text_of cvss.now }
    ensures room { length page.new ≤ length page.old + 350 }
{
    match cvss {
        Cvss::CvssV20(vector) => page.push_text(vector.text(&mut TextBuffer::new())),
        Cvss::CvssV30(vector) | Cvss::CvssV31(vector) => {
            put_prefixed(page, "CVSS:3.", vector.minor_version, vector);
        }
        Cvss::CvssV40(vector) => put_prefixed(page, "CVSS:4.", vector.minor_version, vector),
    }
}

/// Writes the prefix of a vector with its minor version, and its components after it.
#[tactic(auto, using(cvss_text::proofs::NumeralLemmas::decimal_numeral))]
fn put_prefixed<V: Printed>(page: &mut Page, prefix: &str, minor: usize, vector: &V)
    requires prefix { V.version.front vector.now ≡ (prefix.now ++ numeral minor) ∷ [] }
    requires short { length prefix.now ≤ 10 }
    requires fits { length (texts_with_slash V.version vector.now V.version.printed) ≤ 10 * most_metrics }
    requires room { length page.old + 350 ≤ 4096 }
    ensures text { page.new ≡ page.old ++ canonical_text V.version vector.now }
    ensures room { length page.new ≤ length page.old + 350 }
{
    page.push(prefix.as_bytes());
    page.whole(minor as u64);
    let mut components = TextBuffer::new();
    vector.write_metrics(&mut components);
    page.push_text(components.text());
}

/// How the vector's value for a metric is spelled.
pub fn spelled<V: Printed>(vector: &V, kind: V::Kind) -> Option<&'static [u8]>
    ensures { option_copied result ≡ held V.version vector.now kind }
{
    Some(vector.spelling(kind)?.as_bytes())
}
