//! The matches of vectors in a text.

ghost use Rattle.std.specs.Prelude.{◌≡◌};
ghost use Rattle.cvss_ffi.specs.Buffer.{PutsFilled};
ghost use Rattle.cvss_ffi.specs.Matches.{IsMatchFrom, match_size};

use crate::buffer::put;
use cvss_matches::Matches;

/// A match of a vector in a text, and the state of a loop of calls that finds each.
#[derive(Drop)]
#[repr(C)]
pub struct CvssMatch {
    /// The number of bytes that the caller has for it.
    pub size: u32,
    /// Where the next call goes on; 0 before the first.
    pub next: usize,
    /// The offset of the match in the text.
    pub offset: usize,
    /// The number of bytes of the match.
    pub length: usize,
}

/// The number of bytes of a match.
const MATCH_SIZE: u32 = 32;

const _: () = prove!(size_of::<CvssMatch>() == 32);

/// Writes the first match from where the last call left off, if there is one and the struct is large
/// enough, and returns whether it does.
pub fn find(text: &[u8], found: &mut CvssMatch) -> bool
    ensures { PutsFilled match_size found.old.size
        (IsMatchFrom text.now found.old.next found.old.size) found.old found.new result }
{
    if found.size < MATCH_SIZE {
        return false;
    }
    put(first_match(text, found.next, found.size), found)
}

/// The first match in a text from an offset on, in a struct of this size.
fn first_match(text: &[u8], from: usize, size: u32) -> Option<CvssMatch>
    ensures { IsMatchFrom text.now from size result }
{
    let (found, next) = Matches::first_after(text, from)?;
    Some(CvssMatch {
        size,
        next,
        offset: found.offset,
        length: found.text.len(),
    })
}
