//! What text is written into.

ghost use Rattle.std.specs.Prelude.{◌≡◌, ℕ, List, [], false, IfOk, OnOk};
ghost use Rattle.cvss_json.specs.Sinks.{Adds};

use cvss_lines::OutputBuffer;
use std::alloc::{AllocError, Global};

/// What takes text, and never fails while it does: a sink that can fail says so at its end.
pub trait Sink {
    ghost use Rattle.std.specs.Prelude.{ℕ, List};

    /// The sink holds this text, as far as it holds one.
    ghost Holds: { Self → List ℕ → Type 0 };

    /// Adds bytes.
    fn push(&mut self, bytes: &[u8])
        ensures { Adds Holds bytes.now self.old self.new };
}

/// Text that grows. Once a growth of its memory is refused it takes nothing more.
#[derive(Drop)]
pub struct Growing {
    bytes: Vec<u8>,
    failed: bool,
}

impl Sink for Growing {
    ghost Holds = { λ buffer text. buffer.failed ≡ false → buffer.bytes.items ≡ text };

    #[inline(always)]
    fn push(&mut self, bytes: &[u8]) {
        self.failed = self.failed || self.bytes.extend_from_slice(bytes).is_err();
    }
}

impl Growing {
    /// The empty text.
    pub fn new(alloc: Global) -> Growing
        ensures { ⟦<Growing as Sink>⟧.Holds result [] }
    {
        Growing {
            bytes: Vec::new(alloc),
            failed: false,
        }
    }

    /// The text, once it is whole.
    ///
    /// # Errors
    ///
    /// Out of memory, at some push.
    pub fn end(self) -> Result<Vec<u8>, AllocError>
        ensures { IfOk result (λ bytes. (text : List ℕ) → ⟦<Growing as Sink>⟧.Holds self text
            → bytes.items ≡ text) }
    {
        if self.failed {
            return Err(AllocError);
        }
        Ok(self.bytes)
    }

    /// Takes the answers that wait, to add to them.
    pub fn begin_after(answers: &mut OutputBuffer) -> Growing
        ensures { ⟦<Growing as Sink>⟧.Holds result answers.old.bytes.items }
    {
        let alloc = *answers.bytes.allocator();
        Growing {
            bytes: std::mem::replace(&mut answers.bytes, Vec::new(alloc)),
            failed: false,
        }
    }

    /// Gives back the answers that wait, with what was added.
    ///
    /// # Errors
    ///
    /// Out of memory, at some push. The answers have a beginning of what was added then.
    pub fn end_into(self, answers: &mut OutputBuffer) -> Result<(), AllocError>
        ensures { OnOk result ((text : List ℕ) → ⟦<Growing as Sink>⟧.Holds self text
            → answers.new.bytes.items ≡ text) }
    {
        answers.bytes = self.bytes;
        if self.failed { Err(AllocError) } else { Ok(()) }
    }
}
