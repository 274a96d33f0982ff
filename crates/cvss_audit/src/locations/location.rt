//! The location of a vector in a document.

ghost use Rattle.std.specs.Prelude.{◌≡◌};
ghost use Rattle.cvss_audit.specs.Locations.{context_view, member_context};
ghost use Rattle.serde_json.specs.View.{members_view};

use crate::locations::form::Form;
use serde_json::{Map, Value};

/// The location of a vector in a document.
#[derive(Drop)]
pub struct Location<'a> {
    /// The JSON Pointer of the object that holds the vector.
    pub at: String,
    /// How the object holds it.
    pub form: Form,
    /// The vector's text, as it is; none where a vector should be and there is no string.
    pub text: Option<&'a str>,
    /// The object.
    pub object: &'a Map<String, Value>,
    /// What is around the object.
    pub context: Context<'a>,
}

/// What is around a value in a document.
#[derive(Clone, Copy)]
pub struct Context<'a> {
    /// The member that the value is, if it is one or in an array that is one.
    pub around: Option<Around<'a>>,
    /// The id of the nearest object around the value that has one. To an object's own vectors that
    /// object is the nearest.
    pub id: Option<&'a str>,
}

/// A member, and the object that has it.
#[derive(Clone, Copy)]
pub struct Around<'a> {
    /// The name of the member.
    pub name: &'a str,
    /// The object that has it.
    pub object: &'a Map<String, Value>,
    /// The name of the member that this object is, if it is one or in an array that is one.
    pub outer: Option<&'a str>,
}

/// The context of the value of a member with this name, by that of the object.
pub(crate) fn member_context<'a>(
    context: Context<'a>,
    object: &'a Map<String, Value>,
    name: &'a str,
) -> Context<'a>
    ensures { context_view result
        ≡ member_context (context_view context.entry) (members_view object.now.entries) name.now }
{
    let outer = match context.around {
        Some(around) => Some(around.name),
        None => None,
    };
    Context {
        around: Some(Around {
            name,
            object,
            outer,
        }),
        id: context.id,
    }
}
