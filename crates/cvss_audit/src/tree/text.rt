//! The text of a JSON value, after what waits.

ghost use Rattle.std.specs.Prelude.{◌≡◌, ◌++◌, [], ◌∷◌, IfOk, OnOk};
ghost use Rattle.cvss_audit.specs.Trees.{members_view, tree_view, trees_view};
ghost use Rattle.cvss_audit.specs.Texts.{IsTextOf};
ghost use Rattle.cvss_audit.specs.private.Pushes.{PushesText};
ghost use Rattle.json.specs.Print.{quoted};
ghost use Rattle.serde_json.specs.Data.{array, object, string};
ghost use Rattle.serde_json.specs.View.{view};
ghost use Rattle.serde_json.specs.Written.{comma_if};

use crate::tree::value::Tree;
use cvss_lines::OutputBuffer;
use serde_json::{Map, Value};
use std::alloc::{AllocError, Global};

#[cycle(push_tree)]
fn push_tree(alloc: Global, tree: &Tree<'_>, answers: &mut OutputBuffer) -> Result<(), AllocError>
    ensures { OnOk result (PushesText (tree_view tree.now)
        answers.old.bytes.items answers.new.bytes.items) }
{
    match tree {
        Tree::Own(value) => push_value(alloc, value, answers),
        Tree::Borrowed(value) => push_value(alloc, value, answers),
        Tree::Text(text) => push_text(alloc, text, answers),
        Tree::Array(items) => push_items(alloc, items, answers),
        Tree::Object(members) => push_members(alloc, members, answers),
    }
}

#[cycle(push_tree)]
fn push_items(
    alloc: Global,
    items: &Vec<Tree<'_>>,
    answers: &mut OutputBuffer,
) -> Result<(), AllocError>
    ensures { OnOk result (PushesText (array (trees_view items.now.items))
        answers.old.bytes.items answers.new.bytes.items) }
{
    answers.push(b"[")?;
    let mut later = false;
    for item in items {
        push_comma(later, answers)?;
        push_tree(alloc, item, answers)?;
        later = true;
    }
    answers.push(b"]")
}

/// Appends the text of an object.
#[cycle(push_tree)]
pub(crate) fn push_members(
    alloc: Global,
    members: &Map<String, Tree<'_>>,
    answers: &mut OutputBuffer,
) -> Result<(), AllocError>
    ensures { OnOk result (PushesText (object (members_view members.now.entries))
        answers.old.bytes.items answers.new.bytes.items) }
{
    answers.push(b"{")?;
    let mut later = false;
    for (name, member) in members {
        push_name(alloc, later, name.as_str(), answers)?;
        push_tree(alloc, member, answers)?;
        later = true;
    }
    answers.push(b"}")
}

/// Appends a member's name and its colon, after a comma where something comes before.
fn push_name(
    alloc: Global,
    later: bool,
    name: &str,
    answers: &mut OutputBuffer,
) -> Result<(), AllocError>
    ensures { OnOk result (answers.new.bytes.items
        ≡ answers.old.bytes.items ++ (comma_if later ++ (quoted name.now ++ 58 ∷ []))) }
{
    push_comma(later, answers)?;
    push_text(alloc, name, answers)?;
    answers.push(b":")
}

/// Appends a comma, where something comes before.
fn push_comma(later: bool, answers: &mut OutputBuffer) -> Result<(), AllocError>
    ensures { OnOk result (answers.new.bytes.items ≡ answers.old.bytes.items ++ comma_if later) }
{
    if later { answers.push(b",") } else { Ok(()) }
}

/// Appends the text of a string.
fn push_text(alloc: Global, text: &str, answers: &mut OutputBuffer) -> Result<(), AllocError>
    ensures value { OnOk result (PushesText (string text.now)
        answers.old.bytes.items answers.new.bytes.items) }
    ensures quoted { OnOk result (answers.new.bytes.items
        ≡ answers.old.bytes.items ++ quoted text.now) }
{
    push_value(alloc, &Value::try_from_str(alloc, text)?, answers)
}

/// Appends the text of a value.
fn push_value(alloc: Global, value: &Value, answers: &mut OutputBuffer) -> Result<(), AllocError>
    ensures { OnOk result (PushesText (view value.now)
        answers.old.bytes.items answers.new.bytes.items) }
{
    let text = text_of(alloc, value)?;
    answers.push(&text)
}

/// The text of a value, without spaces.
///
/// # Errors
///
/// Out of memory.
#[tactic(auto, using(crate::proofs::OneLineLemmas::one_line))]
pub fn text_of(alloc: Global, value: &Value) -> Result<Vec<u8>, AllocError>
    ensures { IfOk result (λ text. IsTextOf (view value.now) text.items) }
{
    let text = value.to_vec(alloc)?;
    Ok(text)
}
