//! How an input is read whole.

ghost use Rattle.std.specs.Io.KnownBytes.{Consumes, IsAtEnd};
ghost use Rattle.std.specs.Prelude.{◌≢◌, IfErr, IfOk};
ghost use Rattle.cvss_lines.specs.declared.fault.RunFault.TheVariants.{Write as WriteFault};

use cvss_lines::{RunFault, read_buffer};
use std::alloc::Global;
use std::io::Read;

/// Reads the whole input. A read that fails is not tried again, not even one that a signal
/// interrupted.
pub fn read_whole<R: Read>(alloc: Global, reader: &mut R) -> Result<Vec<u8>, RunFault>
    ensures whole { IfOk result (λ input. Consumes (R.remaining reader.old)
        (R.remaining reader.new) input.items × IsAtEnd (R.remaining reader.new)) }
    ensures fault { IfErr result (λ fault. fault ≢ WriteFault) }
{
    let mut chunk = read_buffer(alloc)?;
    let mut input = Vec::new(alloc);
    for _ in 0..u64::MAX {
        let Ok(count) = reader.read(&mut chunk) else {
            return Err(RunFault::Read);
        };
        if count == 0 {
            return Ok(input);
        }
        input.extend_from_slice(&chunk[..count])?;
    }
    Err(RunFault::Read)
}
