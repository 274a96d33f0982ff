//! The inputs, each read whole.

ghost use Rattle.std.specs.Prelude.{◌≡◌, ◌∷◌, [], IfOk, codes};
ghost use Rattle.cvss_frame.specs.Arguments.{bytes_of};
ghost use Rattle.cvss_frame.specs.Streams.{state};
ghost use Rattle.cvss_triage.specs.Inputs.{ReadsEach, ReadsInput, inputs_of};

use cvss_frame::{Host, Streams, read_operand};
use cvss_lines::RunFault;
use std::alloc::{AllocError, Global};

/// Reads the operands in turn, or standard input where there is none. What cannot be read is reported,
/// and has no bytes. Nothing is written.
///
/// # Errors
///
/// Out of memory.
pub(crate) fn read_inputs<H: Host>(
    alloc: Global,
    operands: &[Vec<u8>],
    streams: &mut Streams<H>,
) -> Result<Vec<Option<Vec<u8>>>, AllocError>
    ensures read { IfOk result (λ inputs. ReadsEach ReadsInput (inputs_of operands.now)
        (state streams.old) (state streams.new) inputs.items) }
    ensures written { (state streams.new).written ≡ (state streams.old).written }
{
    match operands {
        [] => read_standard_input(alloc, streams),
        _ => read_operands(alloc, operands, streams),
    }
}

fn read_standard_input<H: Host>(
    alloc: Global,
    streams: &mut Streams<H>,
) -> Result<Vec<Option<Vec<u8>>>, AllocError>
    ensures read { IfOk result (λ inputs. ReadsEach ReadsInput (codes "-" ∷ [])
        (state streams.old) (state streams.new) inputs.items) }
    ensures written { (state streams.new).written ≡ (state streams.old).written }
{
    let mut inputs = Vec::new(alloc);
    inputs.push(read_input(alloc, b"-", streams)?)?;
    Ok(inputs)
}

#[tactic(auto, using(crate::proofs::ReadsLemmas::reads_all))]
fn read_operands<H: Host>(
    alloc: Global,
    operands: &[Vec<u8>],
    streams: &mut Streams<H>,
) -> Result<Vec<Option<Vec<u8>>>, AllocError>
    ensures read { IfOk result (λ inputs. ReadsEach ReadsInput (bytes_of operands.now)
        (state streams.old) (state streams.new) inputs.items) }
    ensures written { (state streams.new).written ≡ (state streams.old).written }
{
    let mut inputs = Vec::new(alloc);
    for operand in operands {
        inputs.push(read_input(alloc, operand, streams)?)?;
    }
    Ok(inputs)
}

/// The bytes of an operand. There are none if it cannot be read, which is reported. Nothing is written.
///
/// # Errors
///
/// Out of memory.
pub(crate) fn read_input<H: Host>(
    alloc: Global,
    operand: &[u8],
    streams: &mut Streams<H>,
) -> Result<Option<Vec<u8>>, AllocError>
    ensures read { IfOk result (ReadsInput operand.now (state streams.old) (state streams.new)) }
    ensures written { (state streams.new).written ≡ (state streams.old).written }
{
    match read_operand(alloc, operand, streams) {
        Ok(bytes) => Ok(Some(bytes)),
        Err(RunFault::Memory) => Err(AllocError),
        Err(_) => Ok(None),
    }
}
