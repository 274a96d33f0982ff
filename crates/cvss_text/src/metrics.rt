//! The metrics that a vector has, once for all versions.

ghost use Rattle.std.specs.Prelude.{◌≡◌, List};
ghost use Rattle.std.specs.Iterator.{YieldsFirstBy, item_count};
ghost use Rattle.cvss_text.specs.Listing.{listed_metrics, metrics_left, as_listed};

use crate::print::Printed;

/// A vector of some version, whose metrics can be listed.
pub trait Listed: Printed {
    ghost order: { List Self.Kind };

    /// The metrics in the order in which they are listed.
    fn listed() -> &'static [Self::Kind]
        ensures { result.now ≡ order };
}

/// The metrics that a vector has: the type of each, and how its value is spelled.
#[derive(Drop)]
pub struct Metrics<V: Listed> {
    vector: V,
    place: usize,
}

impl<V: Listed> Metrics<V> {
    /// All metrics that the vector has.
    pub fn of(vector: &V) -> Metrics<V>
        ensures { metrics_left V.version V.order result
            ≡ listed_metrics V.version vector.now V.order }
    {
        Metrics {
            vector: *vector,
            place: 0,
        }
    }
}

impl<V: Listed> Iterator for Metrics<V> {
    type Item = (V::Kind, &'static str);

    ghost next_gives = { YieldsFirstBy as_listed (metrics_left V.version V.order) };

    ghost remaining = { item_count (metrics_left V.version V.order) };

    fn next(&mut self) -> Option<(V::Kind, &'static str)> {
        while let Some(kind) = V::listed().get(self.place) {
            self.place += 1;
            if let Some(spelling) = self.vector.spelling(*kind) {
                return Some((*kind, spelling));
            }
        }
        None
    }
}
