//! The ids of the objects in a document.

ghost use Rattle.std.specs.Prelude.{◌≡◌, option_map};
ghost use Rattle.cvss_audit.specs.Locations.{context_view, id_of, own_context, text_within};
ghost use Rattle.serde_json.specs.View.{members_view};

use crate::locations::location::Context;
use crate::locations::member::{object_at, text_at};
use serde_json::{Map, Value};

/// What is around an object's own vectors, by what is around the object.
pub(crate) fn own_context<'a>(context: Context<'a>, object: &'a Map<String, Value>) -> Context<'a>
    ensures { context_view result
        ≡ own_context (context_view context.entry) (members_view object.now.entries) }
{
    Context {
        around: context.around,
        id: id_of(object).or(context.id),
    }
}

/// The id that an object has: the first string among the members that NVD, CVE records, GitHub's
/// advisories, most others, CSAF, Trivy and SPDX 3 have for it.
fn id_of(object: &Map<String, Value>) -> Option<&str>
    ensures { option_map (λ id. id.now) result ≡ id_of (members_view object.now.entries) }
{
    text_within(object, "cve", "id")
        .or_else(|| text_within(object, "cveMetadata", "cveId"))
        .or_else(|| text_at(object, "ghsa_id"))
        .or_else(|| text_at(object, "id"))
        .or_else(|| text_at(object, "cve"))
        .or_else(|| text_at(object, "VulnerabilityID"))
        .or_else(|| text_at(object, "spdxId"))
}

/// The text of a member of the member with this name.
fn text_within<'a>(object: &'a Map<String, Value>, outer: &str, inner: &str) -> Option<&'a str>
    ensures { option_map (λ text. text.now) result
        ≡ text_within outer.now inner.now (members_view object.now.entries) }
{
    text_at(object_at(object, outer)?, inner)
}
