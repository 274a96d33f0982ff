ghost use Rattle.std.specs.Prelude.{◌≡◌, Some};
ghost use Rattle.cvss_lines.specs.Exit.{fault_text};
ghost use Rattle.cvss_lines.specs.declared.fault.RunFault.TheVariants.{Memory};

use std::alloc::AllocError;
use std::fmt;

/// Why a run has ended before it has answered all of its input.
#[derive(Clone, Copy, Debug, PartialEq, Eq)]
pub enum RunFault {
    /// The reader failed, or gave no end in `u64::MAX` reads. An interrupted read is a failure.
    Read,
    /// The writer failed, or took no byte of a write that wasn't empty.
    Write,
    /// A growth of a buffer was refused.
    Memory,
}

impl From<AllocError> for RunFault {
    ghost from_gives = { λ _ fault. fault ≡ Memory };

    fn from(_: AllocError) -> RunFault {
        RunFault::Memory
    }
}

/// The words for the fault, without the program's name.
impl fmt::Display for RunFault {
    ghost output = { λ fault. Some (fault_text fault) };

    fn fmt<W: fmt::Write>(&self, f: &mut fmt::Formatter<W>) -> fmt::Result {
        match self {
            RunFault::Read => f.write_str("read failed"),
            RunFault::Write => f.write_str("write failed"),
            RunFault::Memory => f.write_str("out of memory"),
        }
    }
}
