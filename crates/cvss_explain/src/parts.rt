//! The members of explanations.

ghost use Rattle.std.specs.Prelude.{◌≡◌, ◌+◌, ◌≤◌, ◌++◌, [], length, unwrap_or};
ghost use Rattle.cvss_vector.specs.Answers.{severity_by, score_of_tenths};
ghost use Rattle.cvss_base.specs.SeverityText.{text_of as severity_text};
ghost use Rattle.cvss_explain.specs.private.Values.{part_member, part_room, value_room, value_text};

use crate::groups::{levels, put_groups};
use crate::object::{Entry, Table};
use crate::step::Step;
use crate::v2::{METRICS, Weights};
use crate::v4::{EFFECTIVE, Letters};
use cvss_base::TENTH;
use cvss_json::{Member, Members, Page, Scalar, Scalars, put_name, put_object};
use cvss_report::put_vector;
use cvss_score::v4::scoring::classes::MacroVector;
use cvss_score::v4::scoring::effective::Effective;
use cvss_vector::v4::Explanation;
use cvss_vector::{Cvss, v2};

/// What a member says: of the vector, or of numbers that are made of it.
#[derive(Clone, Copy)]
pub(crate) enum Value<'v> {
    Scalar(Scalar<'static>),
    /// The digits of a class, as a string.
    Class(MacroVector),
    /// The number of the line, if there is one.
    Line(Option<u64>),
    /// The severity of a score of so many tenths.
    Severity(u8),
    /// The vector's canonical text.
    Text,
    /// The vector's version.
    Version,
    /// Steps to a score, by these entries.
    Steps(&'v [Step], &'static [Entry]),
    /// Members whose values are scalars.
    Scalars(&'v [Member<'static>]),
    /// What each metric of CVSS v2 weighs.
    WeightsV2(v2::Vector),
    /// The letters of effective values.
    Letters(Effective),
    /// What each group of metrics of CVSS v4.0 contributes.
    Groups(&'v Explanation),
}

/// A member's name, and what it says.
pub(crate) type Part<'v> = (&'static str, Value<'v>);

/// The vector that is explained.
#[derive(Drop)]
pub(crate) struct VectorParts<'v> {
    pub(crate) cvss: &'v Cvss,
}

impl<'a> Members<Part<'a>> for VectorParts<'_> {
    ghost text_at = { λ explained part. part_member explained.cvss.now part };

    ghost room_at = { λ _ part. part_room part };

    fn put_at(&self, page: &mut Page, later: bool, part: Part<'a>) -> bool {
        let (name, value) = part;
        if let Value::Line(None) = value {
            return later;
        }
        put_name(page, later, name);
        put_value(page, self.cvss, value);
        true
    }
}

/// Writes what a member says; nothing where there is no line.
fn put_value(page: &mut Page, cvss: &Cvss, value: Value<'_>)
    requires { length page.old + value_room value ≤ 4096 }
    ensures text { page.new ≡ page.old ++ unwrap_or (value_text cvss.now value.entry) [] }
    ensures room { length page.new ≤ length page.old + value_room value.entry }
{
    match value {
        Value::Scalar(scalar) => scalar.put(page),
        Value::Class(class) => Scalar::Digits(&levels(&class)).put(page),
        Value::Line(None) => {}
        Value::Line(Some(line)) => page.whole(line),
        Value::Severity(tenths) => Scalar::Text(severity(cvss, tenths)).put(page),
        Value::Text => {
            page.push(b"\"");
            put_vector(page, cvss);
            page.push(b"\"");
        }
        Value::Version => Scalar::Text(cvss.version().as_str()).put(page),
        Value::Steps(steps, entries) => put_object(page, &Table { steps }, entries),
        Value::Scalars(members) => put_object(page, &Scalars {}, members),
        Value::WeightsV2(vector) => put_object(page, &Weights { vector: &vector }, &METRICS),
        Value::Letters(effective) => {
            put_object(
                page,
                &Letters {
                    effective: &effective,
                },
                &EFFECTIVE,
            );
        }
        Value::Groups(explanation) => put_groups(page, explanation),
    }
}

/// The severity of the vector's score of so many tenths.
#[inline(never)]
#[tactic(auto, using(crate::proofs::ShortLemmas::severity_short))]
fn severity(cvss: &Cvss, tenths: u8) -> &'static str
    ensures text { result.now ≡ severity_text (severity_by cvss.now (score_of_tenths tenths)) }
    ensures short { length result.now ≤ 8 }
{
    cvss.severity_of(i128::from(tenths) * TENTH).as_str()
}
