//! Where a document says otherwise than a vector.

ghost use Rattle.std.specs.Prelude.{◌≡◌, IfOk, OnOk, map};
ghost use Rattle.cvss_audit.specs.Objects.{difference_value, differs_members};
ghost use Rattle.cvss_audit.specs.Trees.{members_view, tree_view};
ghost use Rattle.cvss_audit.specs.Differences.{difference_view, said_view};
ghost use Rattle.cvss_audit.specs.Members.{with_members};

use crate::disagreements::difference::{Difference, Said};
use crate::tree::value::{Tree, put_tree};
use crate::written::members::put_list;
use serde_json::Map;
use std::alloc::{AllocError, Global};

/// Puts where the document says otherwise, if it does anywhere.
pub(crate) fn put_differences<'a>(
    members: &mut Map<String, Tree<'a>>,
    alloc: Global,
    differences: Vec<Difference<'a>>,
) -> Result<(), AllocError>
    ensures { OnOk result (members_view members.new.entries
        ≡ with_members (differs_members (map difference_view differences.entry.items))
        (members_view members.old.entries)) }
{
    let mut reported = Vec::new(alloc);
    for difference in differences {
        reported.push(difference_tree(alloc, difference)?)?;
    }
    put_list(members, alloc, "differs", reported)
}

/// The object that says a difference. What is said is written from where it is.
fn difference_tree<'a>(alloc: Global, difference: Difference<'a>) -> Result<Tree<'a>, AllocError>
    ensures { IfOk result (λ tree. tree_view tree
        ≡ difference_value (difference_view difference.entry)) }
{
    let mut members = Map::new(alloc);
    put_tree(&mut members, alloc, "is", Tree::Own(difference.is))?;
    put_tree(&mut members, alloc, "member", Tree::Text(difference.member))?;
    put_tree(&mut members, alloc, "says", said_tree(difference.says))?;
    Ok(Tree::Object(members))
}

fn said_tree<'a>(said: Said<'a>) -> Tree<'a>
    ensures { tree_view result ≡ said_view said.entry }
{
    match said {
        Said::Value(value) => Tree::Borrowed(value),
        Said::Name(name) => Tree::Text(name),
    }
}
