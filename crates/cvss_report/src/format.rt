//! How rows are written.

ghost use Rattle.std.specs.Prelude.{◌≡◌};
ghost use Rattle.cvss_report.specs.Rows.{header_text, tsv_of};

/// How a row is written.
#[derive(Clone, Copy, Debug, PartialEq, Eq)]
pub enum Format {
    /// Values with tabs between them; what there is not is empty. A tab, a line feed, a carriage return and
    /// a backslash in a file's name, the given text or an error are written `\t`, `\n`, `\r` and `\\`.
    Tsv,
    /// The same, but a file's name, a given text or an error has an apostrophe before it where a spreadsheet
    /// would take it for a formula, since it begins with `=`, `+`, `-` or `@`.
    GuardedTsv,
    /// A JSON object (RFC 8259). What there is not, and a given text that is not UTF-8, is null.
    Json,
}

impl Format {
    /// Values with tabs between them, guarded or not.
    pub fn tsv(guarded: bool) -> Format
        ensures { result ≡ tsv_of guarded }
    {
        if guarded {
            Format::GuardedTsv
        } else {
            Format::Tsv
        }
    }
}

/// The names of the columns, with tabs between them, where there are several files or not.
pub fn header(many: bool) -> &'static str
    ensures { result.now ≡ header_text many }
{
    if many { MANY } else { ONE }
}

const ONE: &str =
    "given\tvector\tversion\tbase\ttemporal\tenvironmental\tscore\tseverity\tnomenclature\terror\n";

const MANY: &str =
    "file\tgiven\tvector\tversion\tbase\ttemporal\tenvironmental\tscore\tseverity\tnomenclature\terror\n";
