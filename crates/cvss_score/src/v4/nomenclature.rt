//! Which groups of metrics a score rests on (v4.0 specification, section 1.3).

ghost use Rattle.std.specs.Prelude.{◌≡◌, ◌≤◌, length, IfOk, IfErr, Ok, Some, is_some};
ghost use Rattle.cvss_score.specs.v4.Nomenclature.{text_of, nomenclature_with, ReportsNoNomenclature};

use cvss_base::Error;
use cvss_metric::v4::table::E;
use std::alloc::Global;
use std::fmt;

/// The groups of metrics that a score rests on: base (B), threat (T) and environmental (E).
#[derive(Clone, Copy, Debug, PartialEq, Eq)]
pub enum Nomenclature {
    CvssB,
    CvssBE,
    CvssBT,
    CvssBTE,
}

impl Nomenclature {
    /// The nomenclature's name.
    pub fn as_str(self) -> &'static str
        ensures text { result.now ≡ text_of self }
        ensures short { length result.now ≤ 8 }
    {
        match self {
            Nomenclature::CvssB => "CVSS-B",
            Nomenclature::CvssBE => "CVSS-BE",
            Nomenclature::CvssBT => "CVSS-BT",
            Nomenclature::CvssBTE => "CVSS-BTE",
        }
    }

    /// The nomenclature with this name, exactly as it is written.
    ///
    /// # Errors
    ///
    /// `InvalidNomenclatureV4` with the text where there is none.
    pub fn from_str(alloc: Global, text: &str) -> Result<Nomenclature, Error>
        ensures named { IfOk result (λ nomenclature. text_of nomenclature ≡ text.now) }
        ensures read { (nomenclature : Nomenclature) → text_of nomenclature ≡ text.now
            → result ≡ Ok nomenclature }
        ensures rejected { IfErr result (ReportsNoNomenclature text.now) }
    {
        match text {
            "CVSS-B" => Ok(Nomenclature::CvssB),
            "CVSS-BE" => Ok(Nomenclature::CvssBE),
            "CVSS-BT" => Ok(Nomenclature::CvssBT),
            "CVSS-BTE" => Ok(Nomenclature::CvssBTE),
            _ => Err(Error::InvalidNomenclatureV4 {
                nomenclature: String::from_str(alloc, text)?,
            }),
        }
    }
}

impl fmt::Display for Nomenclature {
    ghost output = { λ nomenclature. Some (text_of nomenclature) };

    ghost styled_output = { λ nomenclature _. Some (text_of nomenclature) };

    fn fmt<W: fmt::Write>(&self, f: &mut fmt::Formatter<W>) -> fmt::Result {
        f.write_str(self.as_str())
    }
}

/// The groups that a score rests on where a vector has this threat metric or none, and environmental
/// metrics or none. A metric that is present as not defined counts.
#[inline(always)]
pub fn nomenclature_of_groups(threat: Option<E>, has_environmental: bool) -> Nomenclature
    ensures { result ≡ nomenclature_with (is_some threat) has_environmental }
{
    match (threat.is_some(), has_environmental) {
        (false, false) => Nomenclature::CvssB,
        (false, true) => Nomenclature::CvssBE,
        (true, false) => Nomenclature::CvssBT,
        (true, true) => Nomenclature::CvssBTE,
    }
}
