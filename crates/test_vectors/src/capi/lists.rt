//! The score lines of many texts, and vectors in any text.

use crate::capi::buffers::{LEFT, print_bytes};
use crate::capi::cut;
use cvss_ffi::CvssMatch;
use cvss_ffi::matches::find;
use cvss_ffi::score_lines::score_lines;
use std::io;

/// The score lines of lines in a buffer of the size before the first blank.
pub(super) fn print_score_lines(rt: &HostRuntime, asked: &[u8], flags: u32) -> io::Result<()> {
    let (size, lines) = cut(asked, b' ');
    let mut texts = Vec::from_slice(rt.alloc(), lines)?;
    replace(&mut texts, b'|', b'\n');
    let mut buffer = vec![in rt.alloc(); LEFT; number(size)]?;
    let (written, read) = score_lines(&texts, flags, &mut buffer);
    replace(&mut buffer, b'\n', b'|');
    print!(rt; "{written} {read} ")?;
    print_bytes(rt, &buffer)
}

fn replace(bytes: &mut [u8], old: u8, new: u8) {
    for byte in bytes {
        if *byte == old {
            *byte = new;
        }
    }
}

/// The number of decimal digits; 0 for other bytes.
pub(super) fn number(digits: &[u8]) -> usize {
    match str::from_utf8(digits) {
        Ok(digits) => digits.parse().unwrap_or(0),
        Err(_) => 0,
    }
}

/// Prints the offset and the length of each match that a loop of calls finds in a text.
pub(super) fn print_matches(rt: &HostRuntime, text: &[u8]) -> io::Result<()> {
    let mut small = new_match(31);
    if find(text, &mut small) || small.next != 0 || small.offset != 99 || small.length != 99 {
        return print!(rt; "a match that is too short was not left as it was");
    }
    let mut found = new_match(33);
    for count in 0..=text.len() {
        let (next, offset, length) = (found.next, found.offset, found.length);
        if !find(text, &mut found) {
            if count == 0 {
                print!(rt; "-")?;
            }
            if (found.next, found.offset, found.length) != (next, offset, length) {
                print!(rt; " the last match was not left as it was")?;
            }
            return Ok(());
        }
        let comma = if count == 0 { "" } else { ", " };
        print!(rt; "{comma}{} {}", found.offset, found.length)?;
        if found.size != 33 || found.next <= next {
            return print!(rt; " another size, or no way on");
        }
    }
    print!(rt; " and no end")
}

fn new_match(size: u32) -> CvssMatch {
    CvssMatch {
        size,
        next: 0,
        offset: 99,
        length: 99,
    }
}
