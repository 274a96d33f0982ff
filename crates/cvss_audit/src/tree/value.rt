//! JSON values of which parts may be borrowed.

ghost use Rattle.std.specs.Prelude.{◌≡◌, OnErr, OnOk};
ghost use Rattle.cvss_audit.specs.Trees.{members_view, tree_view};
ghost use Rattle.serde_json.specs.Data.{put};

use serde_json::{Map, Value};
use std::alloc::{AllocError, Global};

/// A JSON value of which parts may be borrowed: they are written without a copy, except a string,
/// which is copied while it is written.
#[derive(Drop)]
pub enum Tree<'a> {
    /// A value of its own.
    Own(Value),
    /// A borrowed value.
    Borrowed(&'a Value),
    /// A borrowed string.
    Text(&'a str),
    /// An array.
    Array(Vec<Tree<'a>>),
    /// An object.
    Object(Map<String, Tree<'a>>),
}

/// Puts a value under a name, in place of an earlier one.
///
/// # Errors
///
/// Out of memory. The members are unchanged then.
pub fn put_tree<'a>(
    members: &mut Map<String, Tree<'a>>,
    alloc: Global,
    name: &str,
    value: Tree<'a>,
) -> Result<(), AllocError>
    ensures ok { OnOk result (members_view members.new.entries
        ≡ put name.now (tree_view value.entry) (members_view members.old.entries)) }
    ensures err { OnErr result (members.new.entries ≡ members.old.entries) }
{
    let name = String::from_str(alloc, name)?;
    drop(members.insert(name, value)?);
    Ok(())
}
