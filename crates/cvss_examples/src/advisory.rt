//! An advisory: what is reported of a text.

ghost use Rattle.std.specs.Prelude.{IfOk, string_bytes};
ghost use Rattle.cvss.specs.Answers.{HasScore};
ghost use Rattle.cvss_examples.specs.Advisories.{IsAdvisory, IsVectorAdvisory};

use cvss::Cvss;
use cvss::tenths::{tenths_of, text_of};
use std::alloc::{AllocError, Global};

/// The canonical text of a text's vector, its score with one decimal and its severity; or the
/// reason why the text is no vector.
pub fn advisory(alloc: Global, text: &str) -> Result<String, AllocError>
    ensures { IfOk result (λ advisory. IsAdvisory text.now (string_bytes advisory)) }
{
    match Cvss::from_str(alloc, text) {
        Ok(cvss) => vector_advisory(alloc, &cvss),
        Err(error) => Ok(format!(in alloc; "no vector: {error}")?),
    }
}

/// A vector's canonical text, its score with one decimal and its severity.
fn vector_advisory(alloc: Global, cvss: &Cvss) -> Result<String, AllocError>
    requires { HasScore cvss.now }
    ensures { IfOk result (λ advisory. IsVectorAdvisory cvss.now (string_bytes advisory)) }
{
    let score = cvss.score();
    let tenths = text_of(tenths_of(score));
    let severity = cvss.severity_of(score);
    Ok(format!(in alloc; "{cvss}: {tenths} ({severity})")?)
}
