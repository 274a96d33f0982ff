//! The base metrics that a vector lacks.

ghost use Rattle.std.specs.Prelude.{◌≡◌, ◌++◌, IfOk, OnOk, map, string_bytes};
ghost use Rattle.std.specs.Option.{option_to_list};
ghost use Rattle.cvss_audit.specs.Objects.{missing_at, missing_members, missing_of, missing_v3};
ghost use Rattle.cvss_audit.specs.Members.{with_members};
ghost use Rattle.cvss_audit.specs.Trees.{members_view, tree_view};
ghost use Rattle.serde_json.specs.Data.{string};

use crate::tree::value::Tree;
use crate::written::members::put_list;
use cvss_base::MetricGroup;
use cvss_base::v3::MetricType;
use cvss_text::print::Printed;
use cvss_text::walk::Components;
use cvss_vector::Cvss;
use cvss_vector::v3::Vector;
use serde_json::Map;
use std::alloc::{AllocError, Global};

/// Puts the names of the base metrics that a vector lacks, if it lacks any.
pub(crate) fn put_missing<'a>(
    members: &mut Map<String, Tree<'a>>,
    alloc: Global,
    cvss: &Cvss,
) -> Result<(), AllocError>
    ensures { OnOk result (members_view members.new.entries
        ≡ with_members (missing_members cvss.now) (members_view members.old.entries)) }
{
    let missing = trees_of(alloc, missing_of(alloc, cvss)?)?;
    put_list(members, alloc, "missing", missing)
}

fn trees_of<'a>(alloc: Global, names: Vec<&'static str>) -> Result<Vec<Tree<'a>>, AllocError>
    ensures { IfOk result (λ trees. map tree_view trees.items
        ≡ map string (map (λ name. name.now) names.entry.items)) }
{
    let mut trees = Vec::new(alloc);
    for name in names {
        trees.push(Tree::Text(name))?;
    }
    Ok(trees)
}

/// The names of the base metrics that a vector lacks. A vector of CVSS v2 or v4.0 that was read from a
/// text lacks none.
///
/// # Errors
///
/// Out of memory.
pub(crate) fn missing_of(alloc: Global, cvss: &Cvss) -> Result<Vec<&'static str>, AllocError>
    ensures { IfOk result (λ names. map (λ name. name.now) names.items ≡ missing_of cvss.now) }
{
    match cvss {
        Cvss::CvssV30(vector) | Cvss::CvssV31(vector) => missing_v3(alloc, vector),
        Cvss::CvssV20(_) | Cvss::CvssV40(_) => Ok(Vec::new(alloc)),
    }
}

#[tactic(auto, using(crate::proofs::AddedLemmas::added))]
fn missing_v3(alloc: Global, vector: &Vector) -> Result<Vec<&'static str>, AllocError>
    ensures { IfOk result (λ names. map (λ name. name.now) names.items ≡ missing_v3 vector.now) }
{
    let mut missing = Vec::new(alloc);
    for kind in Vector::printed() {
        push_missing(&mut missing, vector, *kind)?;
    }
    Ok(missing)
}

/// Adds the name of a metric, if it is a base metric and a vector lacks it.
fn push_missing(
    missing: &mut Vec<&'static str>,
    vector: &Vector,
    kind: MetricType,
) -> Result<(), AllocError>
    ensures { OnOk result (map (λ name. name.now) missing.new.items
        ≡ map (λ name. name.now) missing.old.items
        ++ option_to_list (missing_at vector.now kind)) }
{
    match kind.group() {
        MetricGroup::Base if vector.spelling(kind).is_none() => {
            missing.push(kind.name())?;
            Ok(())
        }
        _ => Ok(()),
    }
}
