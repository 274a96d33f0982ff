//! How objects are written.

ghost use Rattle.std.specs.Prelude.{OnOk};
ghost use Rattle.cvss_audit.specs.Texts.{WritesObject};
ghost use Rattle.cvss_audit.specs.Trees as trees;
ghost use Rattle.serde_json.specs.Data.{object};

use crate::tree::text::push_members;
use crate::tree::value::Tree;
use cvss_lines::OutputBuffer;
use serde_json::Map;
use std::alloc::{AllocError, Global};

/// Writes an object of which parts may be borrowed, as JSON without spaces, and a byte 10.
///
/// # Errors
///
/// Out of memory.
pub fn write_tree_object(
    alloc: Global,
    members: &Map<String, Tree<'_>>,
    answers: &mut OutputBuffer,
) -> Result<(), AllocError>
    ensures { OnOk result (WritesObject (object (trees.members_view members.now.entries))
        answers.old.bytes.items answers.new.bytes.items) }
{
    push_members(alloc, members, answers)?;
    answers.push(b"\n")
}
