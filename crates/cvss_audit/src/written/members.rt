//! The members of the objects that are written.

ghost use Rattle.std.specs.Prelude.{◌≡◌, ◌∷◌, [], IfOk, OnOk, map, option_map, string_bytes};
ghost use Rattle.cvss_audit.specs.Objects.{accepted_members, input_members, list_member, member_if, location_members, error_member, rated_value, reported_members, score_members, scores_value, v4_members};
ghost use Rattle.cvss_audit.specs.Inputs.{input_view};
ghost use Rattle.cvss_audit.specs.Trees as trees;
ghost use Rattle.cvss_audit.specs.Trees.{tree_view};
ghost use Rattle.cvss_audit.specs.Differences.{difference_view};
ghost use Rattle.cvss_audit.specs.Members.{object_of, with_members};
ghost use Rattle.cvss_audit.specs.Locations.{location_view};
ghost use Rattle.cvss_audit.specs.Scores.{score_value};
ghost use Rattle.serde_json.specs.Data.{string};
ghost use Rattle.serde_json.specs.View.{members_view, view};

use crate::disagreements::difference::Difference;
use crate::documents::input::Input;
use crate::expected::scores::score_value;
use crate::locations::location::Location;
use crate::tree::value::{Tree, put_tree};
use crate::written::differs::put_differences;
use crate::written::missing::put_missing;
use cvss_vector::v4::Vector;
use cvss_vector::{Cvss, Evaluation, Rated};
use serde_json::{Map, Value, json, put};
use std::alloc::{AllocError, Global};

/// Puts where a document is from.
pub(crate) fn put_input<'a>(
    members: &mut Map<String, Tree<'a>>,
    alloc: Global,
    input: Input<'a>,
) -> Result<(), AllocError>
    ensures { OnOk result (trees.members_view members.new.entries
        ≡ with_members (input_members (input_view input.entry))
        (trees.members_view members.old.entries)) }
{
    put_text(members, alloc, "file", input.file)?;
    match input.line {
        Some(line) => put_tree(members, alloc, "line", Tree::Own(Value::from(line))),
        None => Ok(()),
    }
}

/// Puts why a vector or a document is rejected.
pub(crate) fn put_error(
    members: &mut Map<String, Tree<'_>>,
    alloc: Global,
    reason: String,
) -> Result<(), AllocError>
    ensures { OnOk result (trees.members_view members.new.entries
        ≡ with_members (error_member (string_bytes reason) ∷ [])
        (trees.members_view members.old.entries)) }
{
    put_tree(members, alloc, "error", Tree::Own(Value::String(reason)))
}

/// Puts where a vector is, in which document, and its text as it is there.
pub(crate) fn put_location_members<'a>(
    members: &mut Map<String, Tree<'a>>,
    alloc: Global,
    input: Input<'a>,
    location: &'a Location<'a>,
) -> Result<(), AllocError>
    ensures { OnOk result (trees.members_view members.new.entries
        ≡ with_members (location_members (input_view input.entry) (location_view location.now))
        (trees.members_view members.old.entries)) }
{
    put_tree(members, alloc, "at", Tree::Text(location.at.as_str()))?;
    put_input(members, alloc, input)?;
    put_text(members, alloc, "id", location.context.id)?;
    put_text(members, alloc, "given", location.text)
}

/// Puts a text under a name, if there is one.
fn put_text<'a>(
    members: &mut Map<String, Tree<'a>>,
    alloc: Global,
    name: &str,
    text: Option<&'a str>,
) -> Result<(), AllocError>
    ensures { OnOk result (trees.members_view members.new.entries
        ≡ with_members (member_if name.now (option_map string
        (option_map (λ text. text.now) text.entry))) (trees.members_view members.old.entries)) }
{
    match text {
        Some(text) => put_tree(members, alloc, name, Tree::Text(text)),
        None => Ok(()),
    }
}

/// Puts what an accepted vector is, and where the document says otherwise.
pub(crate) fn put_accepted<'a>(
    members: &mut Map<String, Tree<'a>>,
    alloc: Global,
    cvss: &Cvss,
    scores: &Evaluation,
    differences: Vec<Difference<'a>>,
) -> Result<(), AllocError>
    ensures { OnOk result (trees.members_view members.new.entries
        ≡ with_members (accepted_members cvss.now scores.now
        (map difference_view differences.entry.items)) (trees.members_view members.old.entries)) }
{
    put_reported(members, alloc, cvss, scores)?;
    put_missing(members, alloc, cvss)?;
    put_differences(members, alloc, differences)
}

/// Puts a vector's text, its scores and the severity of the one with all metrics in it.
fn put_reported(
    members: &mut Map<String, Tree<'_>>,
    alloc: Global,
    cvss: &Cvss,
    scores: &Evaluation,
) -> Result<(), AllocError>
    ensures { OnOk result (trees.members_view members.new.entries
        ≡ with_members (reported_members cvss.now scores.now)
        (trees.members_view members.old.entries)) }
{
    let text = Value::String(cvss.to_string(alloc)?);
    put_tree(members, alloc, "vector", Tree::Own(text))?;
    let reported = scores_value(alloc, cvss, scores)?;
    put_tree(members, alloc, "scores", Tree::Own(reported))?;
    let severity = scores.overall.severity.as_str();
    put_tree(members, alloc, "severity", Tree::Text(severity))
}

fn scores_value(alloc: Global, cvss: &Cvss, scores: &Evaluation) -> Result<Value, AllocError>
    ensures { IfOk result (λ value. view value ≡ scores_value cvss.now scores.now) }
{
    match cvss {
        Cvss::CvssV20(_) | Cvss::CvssV30(_) | Cvss::CvssV31(_) => group_scores(alloc, scores),
        Cvss::CvssV40(vector) => v4_score(alloc, vector, scores.overall.tenths),
    }
}

/// The scores of the groups of metrics, and the one with all metrics in the vector.
fn group_scores(alloc: Global, scores: &Evaluation) -> Result<Value, AllocError>
    ensures { IfOk result (λ value. view value ≡ object_of (score_members scores.now)) }
{
    let mut members = Map::new(alloc);
    put(&mut members, alloc, "base", score_value(scores.base.tenths))?;
    put_score(&mut members, alloc, "temporal", scores.temporal)?;
    put_score(&mut members, alloc, "environmental", scores.environmental)?;
    put(
        &mut members,
        alloc,
        "score",
        score_value(scores.overall.tenths),
    )?;
    Ok(Value::Object(members))
}

/// Puts a score under a name, if there is one.
fn put_score(
    members: &mut Map<String, Value>,
    alloc: Global,
    name: &str,
    rated: Option<Rated>,
) -> Result<(), AllocError>
    ensures { OnOk result (members_view members.new.entries
        ≡ with_members (member_if name.now (option_map rated_value rated))
        (members_view members.old.entries)) }
{
    match rated {
        Some(rated) => put(members, alloc, name, score_value(rated.tenths)),
        None => Ok(()),
    }
}

/// The score of a vector of CVSS v4.0, and the nomenclature of the groups that it rests on.
fn v4_score(alloc: Global, vector: &Vector, tenths: u8) -> Result<Value, AllocError>
    ensures { IfOk result (λ value. view value ≡ object_of (v4_members vector.now tenths)) }
{
    json!(in alloc; {
        "nomenclature": vector.nomenclature().to_string(alloc)?,
        "score": score_value(tenths),
    })
}

/// Puts a list of values under a name, if there are some.
pub(crate) fn put_list<'a>(
    members: &mut Map<String, Tree<'a>>,
    alloc: Global,
    name: &str,
    values: Vec<Tree<'a>>,
) -> Result<(), AllocError>
    ensures { OnOk result (trees.members_view members.new.entries
        ≡ with_members (list_member name.now (map tree_view values.entry.items))
        (trees.members_view members.old.entries)) }
{
    if values.is_empty() {
        return Ok(());
    }
    put_tree(members, alloc, name, Tree::Array(values))
}
