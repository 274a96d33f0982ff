//! What may help with a match that is rejected for its prefix.

use crate::decoding::decoded_with;
use crate::line::{Line, has_loose_prefix};
use crate::unprefixed::lacks_prefix;
use cvss_vector::{Cvss, Version};
use std::alloc::{AllocError, Global};

/// What is wrong with the prefix of a rejected match.
#[derive(Clone, Copy, Drop)]
pub enum PrefixHint {
    /// It is written in another way than `CVSS:3.1/`.
    Loose,
    /// It is missing, and the metrics make a vector of v3.1.
    MissingV31,
    /// It is missing, and they make one of v4.0.
    MissingV40,
}

impl Line<'_> {
    /// Sets the cell to the hint for a match that is rejected, if there is one, there is memory to find
    /// it, and none is set.
    pub(crate) fn note_hint(self, alloc: Global, accepted: bool, text: &[u8]) {
        if accepted || self.hint.get().is_some() {
            return;
        }
        if let Ok(hint) = self.hint_for(alloc, text) {
            self.hint.set(hint);
        }
    }

    /// The hint for a rejected match.
    fn hint_for(self, alloc: Global, text: &[u8]) -> Result<Option<PrefixHint>, AllocError> {
        if has_loose_prefix(text) {
            Ok(Some(PrefixHint::Loose))
        } else if !lacks_prefix(text) {
            Ok(None)
        } else if self.is_accepted_as(alloc, Version::V31, text)? {
            Ok(Some(PrefixHint::MissingV31))
        } else if self.is_accepted_as(alloc, Version::V40, text)? {
            Ok(Some(PrefixHint::MissingV40))
        } else {
            Ok(None)
        }
    }

    /// Whether a text is accepted after the prefix of a version.
    fn is_accepted_as(
        self,
        alloc: Global,
        version: Version,
        text: &[u8],
    ) -> Result<bool, AllocError> {
        let text = decoded_with(alloc, Some(version), text)?;
        Ok(Cvss::read_by(&text, self.allow_incomplete).is_ok())
    }
}
