//! The record of a vector, as JSON text.

ghost use Rattle.std.specs.Prelude.{◌≡◌, ◌≤◌, [], IfSome, option_and_then, option_map};
ghost use Rattle.cvss_vector.specs.Answers.{HasScore};
ghost use Rattle.cvss_json.specs.Scalars.{scalar_room, scalar_text};
ghost use Rattle.cvss_report.specs.Record.{IsRecordText, expected_text, has_member, member_at, said_at};
ghost use Rattle.cvss_report.specs.private.Room.{field_room};

use crate::expected::{Expected, expected_of};
use crate::field::{Field, fields_of};
use crate::group::is_reported;
use crate::score::Scores;
use crate::text::put_vector;
use cvss_json::{Members, Page, Scalar, put_member, put_name, put_object};
use cvss_vector::Cvss;

/// Writes the record of a vector that has a score: its version, its text, the word of each metric that
/// it has, its scores and, except in CVSS v2, their severities. The members are in the order of their
/// names.
pub fn put_record(page: &mut Page, cvss: &Cvss)
    requires scored { HasScore cvss.now }
    requires empty { page.old ≡ [] }
    ensures { IsRecordText cvss.now page.new }
{
    let scores = Scores::of(cvss);
    put_object(page, &Recorded { cvss, scores }, fields_of(cvss));
}

/// A vector that has these scores.
#[derive(Drop)]
struct Recorded<'v> {
    cvss: &'v Cvss,
    scores: Scores,
}

impl Members<Field> for Recorded<'_> {
    ghost text_at = { λ recorded field. member_at recorded.cvss.now recorded.scores field };

    ghost room_at = { λ _ field. field_room field };

    #[tactic(auto, using(crate::proofs::WordLemmas::name_short))]
    fn put_at(&self, page: &mut Page, later: bool, field: Field) -> bool {
        if let Field::Text = field {
            put_name(page, later, "vectorString");
            page.push(b"\"");
            put_vector(page, self.cvss);
            page.push(b"\"");
            return true;
        }
        match value_at(self.cvss, &self.scores, field) {
            Some(value) => {
                put_member(page, later, field.name(), value);
                true
            }
            None => later,
        }
    }
}

/// The value of a member, the vector's text aside, if the record has it.
#[tactic(auto, using(crate::proofs::WordLemmas::text_short))]
fn value_at(cvss: &Cvss, scores: &Scores, field: Field) -> Option<Scalar<'static>>
    ensures text { option_map scalar_text result
        ≡ option_and_then expected_text (said_at cvss.now scores.now field) }
    ensures room { IfSome result (λ value. scalar_room value ≤ 32) }
{
    if !has_member(cvss, field) {
        return None;
    }
    match expected_of(cvss, scores, field)? {
        Expected::Text(text) => Some(Scalar::Text(text)),
        Expected::Score(tenths) => Some(Scalar::Tenths(tenths)),
        Expected::Nothing => None,
    }
}

/// Whether the record has the member: that of an optional group's score where the vector has a metric
/// of the group.
pub fn has_member(cvss: &Cvss, field: Field) -> bool
    ensures { result ≡ has_member cvss.now field }
{
    match field {
        Field::Score(group) | Field::Severity(group) => is_reported(group, cvss),
        _ => true,
    }
}
