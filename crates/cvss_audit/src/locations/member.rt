//! The members of an object.

ghost use Rattle.std.specs.Prelude.{◌≡◌, option_map};
ghost use Rattle.cvss_audit.specs.Locations.{given_at, object_at, text_at};
ghost use Rattle.serde_json.specs.Find.{get_member};
ghost use Rattle.serde_json.specs.View.{members_view, view};

use serde_json::{Map, Value};

/// The text of the member with this name, if it is a string.
pub(crate) fn text_at<'a>(members: &'a Map<String, Value>, name: &str) -> Option<&'a str>
    ensures { option_map (λ text. text.now) result
        ≡ text_at name.now (members_view members.now.entries) }
{
    member(members, name)?.as_str()
}

/// The members of the member with this name, if it is an object.
pub(crate) fn object_at<'a>(
    members: &'a Map<String, Value>,
    name: &str,
) -> Option<&'a Map<String, Value>>
    ensures { option_map (λ object. members_view object.now.entries) result
        ≡ object_at name.now (members_view members.now.entries) }
{
    member(members, name)?.as_object()
}

/// The value of the member with this name, unless it is null.
pub(crate) fn given_at<'a>(members: &'a Map<String, Value>, name: &str) -> Option<&'a Value>
    ensures { option_map (λ value. view value.now) result
        ≡ given_at name.now (members_view members.now.entries) }
{
    member(members, name).filter(|value| !value.is_null())
}

/// The value of the member with this name.
pub(crate) fn member<'a>(members: &'a Map<String, Value>, name: &str) -> Option<&'a Value>
    ensures { option_map (λ value. view value.now) result
        ≡ get_member name.now (members_view members.now.entries) }
{
    members.get(name)
}
