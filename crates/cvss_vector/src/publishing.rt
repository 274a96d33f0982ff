//! What is published of a canonical text, which is read and scored at once.

ghost use Rattle.std.specs.Prelude.{◌≡◌, Bool, IfSome};
ghost use Rattle.cvss_base.specs.Text.{pieces};
ghost use Rattle.cvss_text.specs.Route.{route_of};
ghost use Rattle.cvss_text.specs.private.Routing.{IsAfterVersion, as_route};
ghost use Rattle.cvss_vector.specs.Complete.{IsPublishedBy, IsPublishedOfComplete};
ghost use Rattle.cvss_vector.specs.private.{IsRouted};

use crate::one_version::OneVersion;
use crate::published::Published;
use crate::scoring::Scoring;
use crate::vector::Cvss;
use crate::{v2, v3, v4};
use cvss_text::in_order::whole;
use cvss_text::route::{Route, route_at_once};

impl Cvss {
    /// What is published of the vector whose canonical text this is, if that is seen at once and the
    /// vector lacks no base metric: `None` says nothing of the text. It takes no memory.
    pub fn published_of_canonical(text: &[u8], scoring: Scoring) -> Option<Published>
        ensures { IfSome result (IsPublishedOfComplete scoring text.now) }
    {
        let route = route_at_once(text)?;
        published_by(text, &route, scoring)
    }
}

/// What is published of the vector whose canonical text this is, if the text, which is read so, is seen
/// to be one and the vector lacks no base metric.
#[inline(always)]
pub(crate) fn published_by(text: &[u8], route: &Route<'_>, scoring: Scoring) -> Option<Published>
    requires route { as_route route.now ≡ route_of text.now }
    requires after { IsAfterVersion (pieces text.now) route.now }
    ensures { IfSome result
        (λ published. (allow_incomplete : Bool) → IsPublishedBy scoring allow_incomplete text.now text.now published) }
{
    match route {
        Route::V20 => published_as::<v2::Vector>(text, text, 0, scoring),
        Route::V30(components) => published_as::<v3::Vector>(text, components, 0, scoring),
        Route::V31(components) => published_as::<v3::Vector>(text, components, 1, scoring),
        Route::V40(components) => published_as::<v4::Vector>(text, components, 0, scoring),
        Route::Unversioned(_) => None,
    }
}

/// What is published of the vector whose canonical text this is, if all of it is in printing order and
/// the vector lacks no base metric.
// A call of its own for each version keeps the vectors apart, as in `reading`, and their metrics in
// registers.
#[inline(never)]
fn published_as<V: OneVersion>(
    text: &[u8],
    components: &[u8],
    minor_version: usize,
    scoring: Scoring,
) -> Option<Published>
    requires { IsRouted V.has_minor V.route V.front text.now components.now minor_version }
    ensures { IfSome result
        (λ published. (allow_incomplete : Bool) → IsPublishedBy scoring allow_incomplete text.now text.now published) }
{
    let empty = V::without_metrics(minor_version);
    V::reads_by_its_rules(text, components, minor_version, empty);
    let (vector, is_base) = whole(empty, components)?;
    // Two calls: in the first the compiler knows that no optional metric is there.
    if is_base {
        Some(vector.join(minor_version).published(scoring))
    } else {
        Some(vector.join(minor_version).published(scoring))
    }
}
