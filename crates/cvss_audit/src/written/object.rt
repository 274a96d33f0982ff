//! The object for a location of a vector.

ghost use Rattle.std.specs.Prelude.{◌≡◌, IfOk, OnOk, map, string_bytes};
ghost use Rattle.cvss_audit.specs.Answers.{AreObjects, IsObjectOf, IsVectorObject};
ghost use Rattle.cvss_audit.specs.Differences.{difference_view};
ghost use Rattle.cvss_audit.specs.Findings.{HasScoreIn, finding_view, rejected};
ghost use Rattle.cvss_audit.specs.Inputs.{input_view};
ghost use Rattle.cvss_audit.specs.Locations.{location_view};
ghost use Rattle.cvss_audit.specs.private.Writing.{WritesTexts};
ghost use Rattle.cvss_audit.specs.Trees.{members_view};
ghost use Rattle.cvss_vector.specs.Answers.{HasScore};
ghost use Rattle.serde_json.specs.Data.{object};

use crate::disagreements::difference::Difference;
use crate::documents::input::Input;
use crate::locations::location::Location;
use crate::tree::value::Tree;
use crate::tree::write::write_tree_object;
use crate::written::finding::Finding;
use crate::written::members::{put_accepted, put_error, put_location_members};
use cvss_lines::OutputBuffer;
use cvss_vector::{Cvss, Evaluation};
use serde_json::Map;
use std::alloc::{AllocError, Global};

/// Writes the object that says what is found at a location.
pub(crate) fn write_object(
    alloc: Global,
    input: Input<'_>,
    location: &Location<'_>,
    finding: Finding<'_>,
    answers: &mut OutputBuffer,
) -> Result<(), AllocError>
    requires { HasScoreIn (finding_view finding) }
    ensures { OnOk result (WritesTexts (AreObjects (input_view input.entry) (location_view location.now)
        (finding_view finding.entry)) answers.old.bytes.items answers.new.bytes.items) }
{
    let members = object_of(alloc, input, location, finding)?;
    write_tree_object(alloc, &members, answers)
}

/// The object that says what is found at a location.
fn object_of<'a>(
    alloc: Global,
    input: Input<'a>,
    location: &'a Location<'a>,
    finding: Finding<'a>,
) -> Result<Map<String, Tree<'a>>, AllocError>
    requires { HasScoreIn (finding_view finding) }
    ensures { IfOk result (λ members. IsObjectOf (input_view input.entry) (location_view location.now)
        (finding_view finding.entry) (object (members_view members.entries))) }
{
    match finding {
        Finding::Vector(cvss, differences) => {
            vector_object(alloc, input, location, &cvss, differences)
        }
        Finding::Rejected(reason) => rejected_object(alloc, input, location, reason),
    }
}

/// The object that says what a vector is, and where the document disagrees with it.
fn vector_object<'a>(
    alloc: Global,
    input: Input<'a>,
    location: &'a Location<'a>,
    cvss: &Cvss,
    differences: Vec<Difference<'a>>,
) -> Result<Map<String, Tree<'a>>, AllocError>
    requires { HasScore cvss.now }
    ensures { IfOk result (λ members. IsVectorObject (input_view input.entry)
        (location_view location.now) cvss.now (map difference_view differences.entry.items)
        (object (members_view members.entries))) }
{
    let mut members = Map::new(alloc);
    put_location_members(&mut members, alloc, input, location)?;
    let scores = Evaluation::of(cvss);
    put_accepted(&mut members, alloc, cvss, &scores, differences)?;
    Ok(members)
}

/// The object that says why there is no vector.
fn rejected_object<'a>(
    alloc: Global,
    input: Input<'a>,
    location: &'a Location<'a>,
    reason: String,
) -> Result<Map<String, Tree<'a>>, AllocError>
    ensures { IfOk result (λ members. IsObjectOf (input_view input.entry) (location_view location.now)
        (rejected (string_bytes reason)) (object (members_view members.entries))) }
{
    let mut members = Map::new(alloc);
    put_location_members(&mut members, alloc, input, location)?;
    put_error(&mut members, alloc, reason)?;
    Ok(members)
}
