//! How a program's arguments are read.

ghost use Rattle.std.specs.Io.{WritesAtMost};
ghost use Rattle.std.specs.Prelude.{◌≡◌, ℕ, List, None, Option, IfOk, IfSome, MatchOption, drop};
ghost use Rattle.cvss_frame.specs.Arguments.{Fills, HasNone, IsArgument, bytes_of};

use std::alloc::{AllocError, Global};
use std::env::{Env, FillError};

/// How many bytes an argument has room for at first.
const ROOM: usize = 256;

/// The arguments that a program was started with. The program's name is at index 0.
pub trait CommandLine {
    /// The bytes of each argument, where they are known.
    ghost given: { Self → Option (List (List ℕ)) } = { λ _. None };

    /// Copies the argument at an index to the start of the buffer, and returns its length.
    ///
    /// # Errors
    ///
    /// There is no argument at the index, or it is longer than the buffer.
    fn copy_argument(&self, index: usize, buffer: &mut [u8]) -> Result<usize, FillError>
        ensures bound { WritesAtMost result buffer.new }
        ensures bytes { IfSome (given self.now)
            (λ arguments. Fills arguments index buffer.new result) };
}

/// The arguments that the system gives. The contracts of [`Env`] do not say which these are.
#[derive(Drop)]
struct OfSystem<'a, E> {
    env: &'a E,
}

impl<E: Env> CommandLine for OfSystem<'_, E> {
    fn copy_argument(&self, index: usize, buffer: &mut [u8]) -> Result<usize, FillError> {
        self.env.arg(index, buffer)
    }
}

/// The bytes of each argument after the program's name, as the system gives them.
///
/// # Errors
///
/// Out of memory.
pub fn arguments<E: Env>(alloc: Global, env: &E) -> Result<Vec<Vec<u8>>, AllocError> {
    arguments_of(alloc, &OfSystem { env })
}

/// The bytes of each argument after the program's name.
///
/// # Errors
///
/// Out of memory.
pub fn arguments_of<L: CommandLine>(alloc: Global, line: &L) -> Result<Vec<Vec<u8>>, AllocError>
    ensures { IfOk result (λ read. IfSome (L.given line.now)
        (λ arguments. bytes_of read.items ≡ drop 1 arguments)) }
{
    let mut arguments = Vec::new(alloc);
    for index in 1..usize::MAX {
        match argument(alloc, line, index)? {
            Some(bytes) => arguments.push(bytes)?,
            None => return Ok(arguments),
        }
    }
    Err(AllocError)
}

/// The bytes of the argument at an index, if there is one.
fn argument<L: CommandLine>(
    alloc: Global,
    line: &L,
    index: usize,
) -> Result<Option<Vec<u8>>, AllocError>
    ensures { IfOk result (λ read. IfSome (L.given line.now)
        (λ arguments. MatchOption read (HasNone arguments index)
        (λ bytes. IsArgument arguments index bytes.items))) }
{
    let mut bytes = vec![in alloc; 0; ROOM]?;
    for _ in 0..usize::BITS {
        match line.copy_argument(index, &mut bytes) {
            Ok(count) => {
                bytes.truncate(count);
                return Ok(Some(bytes));
            }
            Err(FillError::NotPresent) => return Ok(None),
            Err(FillError::TooLong) => bytes.resize(bytes.len().saturating_mul(2), 0)?,
        }
    }
    Err(AllocError)
}
