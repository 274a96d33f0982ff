//! Why a text is rejected, as C sees it: a message in a buffer, and its parts in a struct.

ghost use Rattle.std.specs.Prelude.{◌≡◌, ◌≤◌, ◌<◌, ◌+◌, ◌^◌, [], ◌∷◌, length, pos, Ok};
ghost use Rattle.cvss_ffi.specs.Buffer.{IsFilled, IsWritten};
ghost use Rattle.cvss_ffi.specs.Calls.{IsReturned};
ghost use Rattle.cvss_ffi.specs.Errors.{error_size, no_error};

use crate::buffer::write;
use crate::numbers::NOTHING;

/// Why there is no result, or that there is one. What a call that writes it puts into the buffer is the
/// message.
#[derive(Drop)]
#[repr(C)]
pub struct CvssError {
    /// The number of bytes that the caller has for it.
    pub size: u32,
    /// 0 where there is a result; 1 for a component without one colon, 2 for a wrong prefix, 3 for a
    /// version that is not supported, 4 for an unknown metric, 5 for a value that the metric does not
    /// have, 6 for a metric that occurs twice, 7 for a metric that is missing, 8 for a text that is not
    /// UTF-8.
    pub kind: i32,
    /// The index of the rejected one among metrics that are set, from 0; otherwise `NOTHING`.
    pub index: i32,
    /// 0.
    pub reserved: i32,
    /// The abbreviation of the metric that the message names, filled up with bytes 0.
    pub metric: [u8; 8],
    /// Where the part of the text begins that the message quotes; 0 if it quotes none.
    pub quoted_start: usize,
    /// The number of bytes of that part.
    pub quoted_length: usize,
}

/// The number of bytes of an error.
pub const ERROR_SIZE: u32 = 40;

const _: () = prove!(size_of::<CvssError>() == 40);

/// Writes that there is a result, if the struct is large enough.
#[inline(always)]
pub(crate) fn accept(error: &mut CvssError)
    ensures { IsFilled error_size error.old.size (λ new. new ≡ no_error error.old.size)
        error.old error.new }
{
    if error.size >= ERROR_SIZE {
        *error = CvssError {
            size: error.size,
            kind: 0,
            index: NOTHING,
            reserved: 0,
            metric: [0; 8],
            quoted_start: 0,
            quoted_length: 0,
        };
    }
}

/// Writes a result, and that there is one.
pub(crate) fn write_result(text: &[u8], error: &mut CvssError, buffer: &mut [u8]) -> usize
    ensures { IsReturned (Ok text.now) error.old error.new buffer.old buffer.new result }
{
    accept(error);
    write(text, buffer)
}
