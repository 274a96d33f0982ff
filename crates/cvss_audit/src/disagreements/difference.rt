//! Where an object disagrees with the vector in it.

ghost use Rattle.std.specs.Prelude.{◌≡◌, ◌∷◌, [], IfOk, OnOk, map, option_and_then, option_map};
ghost use Rattle.std.specs.Option.{option_to_list};
ghost use Rattle.cvss_vector.specs.Answers.{HasScore};
ghost use Rattle.cvss_audit.specs.Differences.{AreDifferences, AreDifferencesAt, claim_view, difference_at, difference_from, difference_view, differences_at, expected_by, expected_here, member_differences, osv_type, record_differences, said_view, wrong_name};
ghost use Rattle.cvss_audit.specs.Expected.{expected_value};
ghost use Rattle.cvss_audit.specs.Locations.{location_view};
ghost use Rattle.cvss_audit.specs.private.Views.{Adds};
ghost use Rattle.cvss_report.specs.Record.{expected_view};
ghost use Rattle.serde_json.specs.View.{members_view, view};

use crate::disagreements::claim::{Claim, expected_by};
use crate::disagreements::ratings::{push_rating_members, push_spdx, push_trivy};
use crate::disagreements::surroundings::push_around;
use crate::expected::member::{agrees, expected_at, expected_value};
use crate::expected::sub_scores::SubScores;
use crate::locations::form::Form;
use crate::locations::location::Location;
use crate::locations::member::given_at;
use cvss_report::{Expected, Scores};
use cvss_vector::Cvss;
use serde_json::{Map, Value};
use std::alloc::{AllocError, Global};

/// A member that says otherwise than the vector's record.
#[derive(Drop)]
pub struct Difference<'a> {
    /// The member's name.
    pub member: &'a str,
    /// What it says.
    pub says: Said<'a>,
    /// What would agree; null also where the member's absence, or `NOT_DEFINED`, would.
    pub is: Value,
}

/// What a member says, as it is in the document.
#[derive(Drop)]
pub enum Said<'a> {
    /// Its value.
    Value(&'a Value),
    /// Its name, where that is what says otherwise.
    Name(&'a str),
}

/// A vector, and its scores.
#[derive(Clone, Copy)]
pub(crate) struct Scored<'a> {
    pub(crate) cvss: &'a Cvss,
    pub(crate) scores: Scores,
}

/// The members of an object that say otherwise than the record of a vector, in the order of their
/// names. A member that the version's records don't have says nothing, except a number at `score`,
/// which is to be the vector's score; and neither does the text of the vector. A score of a group is
/// that of the equations even where the vector lacks the group.
///
/// # Errors
///
/// Out of memory.
pub fn differences<'a>(
    alloc: Global,
    cvss: &Cvss,
    object: &'a Map<String, Value>,
) -> Result<Vec<Difference<'a>>, AllocError>
    requires { HasScore cvss.now }
    ensures { IfOk result (λ found. AreDifferences cvss.now (members_view object.now.entries)
        (map difference_view found.items)) }
{
    let scores = Scores::of(cvss);
    let mut found = Vec::new(alloc);
    push_members(&mut found, Scored { cvss, scores }, object)?;
    Ok(found)
}

/// Where the document says otherwise at a location than the vector whose text is there. First the
/// members of the object that holds it: of a record all, of the other forms those that the form has
/// beside the vector. Then what is around the object: the versions that the names of the two members
/// say that it is in, and, as NVD has them, the severity of a vector of CVSS v2 and the sub-scores of
/// one of v2 or v3.
///
/// # Errors
///
/// Out of memory.
pub fn differences_at<'a>(
    alloc: Global,
    cvss: &Cvss,
    location: &Location<'a>,
) -> Result<Vec<Difference<'a>>, AllocError>
    requires { HasScore cvss.now }
    ensures { IfOk result (λ found. AreDifferencesAt cvss.now (location_view location.now)
        (map difference_view found.items)) }
{
    let scores = Scores::of(cvss);
    let parts = SubScores::of(cvss);
    let vector = Scored { cvss, scores };
    let mut found = Vec::new(alloc);
    push_object(&mut found, vector, parts, location)?;
    push_around(&mut found, vector, parts, location.context.around)?;
    Ok(found)
}

/// Adds the differences of the object that holds the vector.
fn push_object<'a>(
    found: &mut Vec<Difference<'a>>,
    vector: Scored<'_>,
    parts: Option<SubScores>,
    location: &Location<'a>,
) -> Result<(), AllocError>
    ensures { OnOk result (Adds found.old.items
        (member_differences vector.entry.cvss.now vector.entry.scores parts location.now.form
        (members_view location.now.object.now.entries)) found.new.items) }
{
    let object = location.object;
    match location.form {
        Form::Record => push_members(found, vector, object),
        Form::GitHub => push_at(found, "score", Claim::Number(vector.scores.base), object),
        Form::Osv => push_at(found, "type", Claim::Text(osv_type(vector.cvss)), object),
        Form::Rating => push_rating_members(found, vector, parts, object),
        Form::TrivyV2 => push_trivy(found, vector, ("V2Score", "V2Vector"), object),
        Form::TrivyV3 => push_trivy(found, vector, ("V3Score", "V3Vector"), object),
        Form::TrivyV40 => push_trivy(found, vector, ("V40Score", "V40Vector"), object),
        Form::RustSec => Ok(()),
        Form::Spdx => push_spdx(found, vector, object),
    }
}

/// Adds the differences of all members of an object.
fn push_members<'a>(
    found: &mut Vec<Difference<'a>>,
    vector: Scored<'_>,
    object: &'a Map<String, Value>,
) -> Result<(), AllocError>
    ensures { OnOk result (Adds found.old.items
        (record_differences vector.entry.cvss.now vector.entry.scores
        (members_view object.now.entries)) found.new.items) }
{
    for (name, said) in object {
        push_member(found, vector, name.as_str(), said)?;
    }
    Ok(())
}

/// Adds the difference of the member of this name from what it is to say, if it is there and not null.
pub(crate) fn push_at<'a>(
    found: &mut Vec<Difference<'a>>,
    name: &'a str,
    claim: Claim,
    object: &'a Map<String, Value>,
) -> Result<(), AllocError>
    ensures { OnOk result (Adds found.old.items
        (differences_at name.now (claim_view claim) (members_view object.now.entries))
        found.new.items) }
{
    match given_at(object, name) {
        Some(said) => push_if_other(found, name, said, expected_by(claim, said)),
        None => Ok(()),
    }
}

/// The type that OSV gives the score of a vector.
fn osv_type(cvss: &Cvss) -> &'static str
    ensures { result.now ≡ osv_type cvss.now }
{
    match cvss {
        Cvss::CvssV20(_) => "CVSS_V2",
        Cvss::CvssV30(_) | Cvss::CvssV31(_) => "CVSS_V3",
        Cvss::CvssV40(_) => "CVSS_V4",
    }
}

/// Adds the difference of a member, if it says otherwise than the vector's record or score.
fn push_member<'a>(
    found: &mut Vec<Difference<'a>>,
    vector: Scored<'_>,
    name: &'a str,
    said: &'a Value,
) -> Result<(), AllocError>
    ensures { OnOk result (Adds found.old.items
        (option_to_list (difference_at vector.entry.cvss.now vector.entry.scores
        (name.now, view said.now))) found.new.items) }
{
    push_if_other(found, name, said, expected_here(vector, name, said))
}

/// What is expected of a member, if anything: of a number at `score` that it is the vector's, and else
/// what the vector's record says.
fn expected_here(vector: Scored<'_>, name: &str, said: &Value) -> Option<Expected>
    ensures { option_map expected_view result
        ≡ expected_here vector.entry.cvss.now vector.entry.scores (name.now, view said.now) }
{
    if name == "score" {
        expected_by(Claim::Number(vector.scores.base), said)
    } else {
        expected_at(vector.cvss, &vector.scores, name, said)
    }
}

/// Adds the difference between what is said and what is expected, if there is one.
fn push_if_other<'a>(
    found: &mut Vec<Difference<'a>>,
    member: &'a str,
    said: &'a Value,
    expected: Option<Expected>,
) -> Result<(), AllocError>
    ensures { OnOk result (Adds found.old.items
        (option_to_list (option_and_then (difference_from (member.now, view said.now))
        (option_map expected_view expected))) found.new.items) }
{
    let Some(expected) = expected else {
        return Ok(());
    };
    if agrees(expected, said) {
        return Ok(());
    }
    push_difference(found, member, Said::Value(said), expected)
}

/// Adds the name of a member, if it says another version than the vector's.
pub(crate) fn push_name<'a>(
    found: &mut Vec<Difference<'a>>,
    cvss: &Cvss,
    name: &'a str,
    is_wrong: bool,
) -> Result<(), AllocError>
    ensures { OnOk result (Adds found.old.items (wrong_name cvss.now name.now is_wrong)
        found.new.items) }
{
    if is_wrong {
        let expected = Expected::Text(cvss.version().as_str());
        return push_difference(found, name, Said::Name(name), expected);
    }
    Ok(())
}

/// Adds the difference between what a member says and what is expected.
fn push_difference<'a>(
    found: &mut Vec<Difference<'a>>,
    member: &'a str,
    says: Said<'a>,
    expected: Expected,
) -> Result<(), AllocError>
    ensures { OnOk result (Adds found.old.items
        ((member.now, said_view says.entry, expected_value (expected_view expected)) ∷ []) found.new.items) }
{
    let is = expected_value(expected, *found.allocator())?;
    found.push(Difference { member, says, is })?;
    Ok(())
}
