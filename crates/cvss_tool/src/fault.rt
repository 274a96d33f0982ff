ghost use Rattle.std.specs.Prelude.{◌≡◌};
ghost use Rattle.cvss_tool.specs.Exit.{fault_text as text_of_fault};

use crate::RunFault;

/// What the program says of a fault on standard error.
pub fn fault_text(fault: &RunFault) -> &'static str
    ensures { result.now ≡ text_of_fault fault.now }
{
    match fault {
        RunFault::Read => "cvss_tool: read failed",
        RunFault::Write => "cvss_tool: write failed",
        RunFault::Memory => "cvss_tool: out of memory",
    }
}
