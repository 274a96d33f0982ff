//! Tests of the faults of runs, and of the cutting of lines.

use crate::values::{Tried, are_printed};
use cvss_lines::{RunFault, first_line};
use std::process::Abort;

/// The faults and their texts.
const FAULTS: [(&str, RunFault); 3] = [
    ("read failed", RunFault::Read),
    ("write failed", RunFault::Write),
    ("out of memory", RunFault::Memory),
];

#[test]
fn reports_every_fault(rt: HostRuntime) -> Tried {
    are_printed(&rt, rt.alloc(), &FAULTS)
}

#[test]
fn cuts_off_the_first_line(rt: HostRuntime) {
    assert!(rt; first_line(b"").is_none());
    is_cut_off(&rt, b"a\r\nb", b"a", b"b");
    is_cut_off(&rt, b"b\r", b"b", b"");
}

/// Compares a text's first line and what follows it.
fn is_cut_off(rt: &impl Abort, text: &[u8], line: &[u8], after: &[u8]) {
    let (cut, rest) = first_line(text).unwrap_or((b"", b"no line"));
    assert!(rt; cut == line && rest == after);
}
