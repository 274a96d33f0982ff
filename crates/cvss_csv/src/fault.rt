//! Why a run over a text ends before it has answered all of it.

ghost use Rattle.std.specs.Prelude.{◌≡◌};
ghost use Rattle.cvss_csv.specs.declared.fault.CsvFault.TheVariants.{Run};
ghost use Rattle.cvss_lines.specs.declared.fault.RunFault.TheVariants.{Memory};

use cvss_lines::RunFault;
use std::alloc::AllocError;

/// Why a run has ended before it has answered all of its input.
#[derive(Clone, Copy, Debug, PartialEq, Eq)]
pub enum CsvFault {
    /// The reader or the writer failed, or memory was refused.
    Run(RunFault),
    /// The first record lacks the column.
    UnknownColumn,
}

impl From<RunFault> for CsvFault {
    ghost from_gives = { λ fault csv. csv ≡ Run fault };

    fn from(fault: RunFault) -> CsvFault {
        CsvFault::Run(fault)
    }
}

impl From<AllocError> for CsvFault {
    ghost from_gives = { λ _ csv. csv ≡ Run Memory };

    fn from(_: AllocError) -> CsvFault {
        CsvFault::Run(RunFault::Memory)
    }
}
