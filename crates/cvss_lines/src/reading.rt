//! The room into which an input is read.

ghost use Rattle.std.specs.Prelude.{◌≡◌, IfOk, vec_len};

use std::alloc::{AllocError, Global};

/// How many bytes one read may return.
const CHUNK: usize = 64 * 1024;

/// Room for the bytes of one read, 64 KiB.
///
/// # Errors
///
/// Out of memory.
pub fn read_buffer(alloc: Global) -> Result<Vec<u8>, AllocError>
    ensures { IfOk result (λ buffer. vec_len buffer ≡ 65_536) }
{
    vec![in alloc; 0; CHUNK]
}
