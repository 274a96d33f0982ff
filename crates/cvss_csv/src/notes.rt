//! What a search notes.

ghost use Rattle.std.specs.Prelude.{ℕ, List, [], ◌∷◌, OnOk};
ghost use Rattle.cvss_csv.specs.Tallies.{Adds};

use std::alloc::AllocError;

/// What is noted of the texts of the vectors that are found, one after another.
pub(crate) trait Notes {
    /// It is noted of these texts.
    ghost is_of: { Self → List (List ℕ) → Type 0 };

    /// Notes the text of a vector that is found.
    ///
    /// # Errors
    ///
    /// Out of memory.
    fn note(&mut self, text: &[u8]) -> Result<(), AllocError>
        ensures { OnOk result (Adds is_of (text.now ∷ []) self.old self.new) };
}
