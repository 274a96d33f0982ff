//! What each member of a record says of a vector.

ghost use Rattle.std.specs.Prelude.{◌≡◌, map, option_map};
ghost use Rattle.std.specs.Option.{option_copied};
ghost use Rattle.cvss_report.specs.Record.{expected_of, expected_view, spelled_at, word_expected};

use crate::field::Field;
use crate::names::{ValueWord, v2, v3, v4, word_in};
use crate::score::{Scores, severity_word};
use crate::text::spelled;
use cvss_vector::Cvss;

/// What a member says.
#[derive(Clone, Copy)]
pub enum Expected {
    /// This text.
    Text(&'static str),
    /// A score of so many tenths.
    Score(u8),
    /// Nothing, as the vector lacks the member's metric.
    Nothing,
}

/// What a member of the vector's record says, its text aside. A score of a group is that of the
/// equations even where the vector lacks the group.
pub fn expected_of(cvss: &Cvss, scores: &Scores, field: Field) -> Option<Expected>
    ensures { option_map expected_view result ≡ expected_of cvss.now scores.now field }
{
    match field {
        Field::V2(kind) => Some(word_expected(v2::entry(kind).1, spelled_at(cvss, field))),
        Field::V3(kind) => Some(word_expected(v3::entry(kind).1, spelled_at(cvss, field))),
        Field::V4(kind) => Some(word_expected(v4::entry(kind).1, spelled_at(cvss, field))),
        Field::Score(group) => Some(Expected::Score(scores.at(group)?)),
        Field::Severity(group) => Some(Expected::Text(severity_word(cvss, scores.at(group)?))),
        Field::Text => None,
        Field::Version => Some(Expected::Text(cvss.version().as_str())),
    }
}

/// The word for how a metric's value is spelled, if there is one.
fn word_expected(words: &[ValueWord], spelling: Option<&[u8]>) -> Expected
    ensures { expected_view result ≡ word_expected (map (λ word. (word.0.now, word.1.now)) words.now)
        (option_copied spelling.entry) }
{
    match spelling {
        Some(spelling) => Expected::Text(word_in(words, spelling)),
        None => Expected::Nothing,
    }
}

/// How the vector's value is spelled for a metric of its version.
fn spelled_at(cvss: &Cvss, field: Field) -> Option<&'static [u8]>
    ensures { option_copied result ≡ spelled_at cvss.now field }
{
    match (cvss, field) {
        (Cvss::CvssV20(vector), Field::V2(kind)) => spelled(vector, kind),
        (Cvss::CvssV30(vector), Field::V3(kind)) => spelled(vector, kind),
        (Cvss::CvssV31(vector), Field::V3(kind)) => spelled(vector, kind),
        (Cvss::CvssV40(vector), Field::V4(kind)) => spelled(vector, kind),
        _ => None,
    }
}
