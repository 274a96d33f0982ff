//! How an option says which vector of a line is ranked.

ghost use Rattle.std.specs.Prelude.{◌≡◌};
ghost use Rattle.cvss_subcommands.specs.Preferences.{preference_of};

use crate::requests::is;
use cvss_triage::Preference;
use cvss_vector::Version;

/// The preference of this name.
pub(crate) fn preference_of(value: &[u8]) -> Option<Preference>
    ensures { result ≡ preference_of value.now }
{
    if is(value, "4.0") {
        Some(Preference::Of(Version::V40))
    } else if is(value, "3.1") {
        Some(Preference::Of(Version::V31))
    } else if is(value, "3.0") {
        Some(Preference::Of(Version::V30))
    } else if is(value, "2.0") {
        Some(Preference::Of(Version::V20))
    } else if is(value, "highest") {
        Some(Preference::Highest)
    } else {
        None
    }
}
