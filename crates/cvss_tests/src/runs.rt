//! Tests of whole runs, over readers and writers that no file is: what is written, what is counted,
//! and the status.

mod kinds;
mod streams;

use cvss_lines::{RunFault, Summary, exit_status, run};
use cvss_vector::Vectors;
use kinds::KINDS;
use std::alloc::{AllocError, Global};
use std::io::ErrorKind;
use std::process::Abort;
use std::test::Fail;
use streams::{Narrow, Steps};

/// The input of some lines, what is written for them, how many are accepted and rejected, and the
/// status.
type ExpectedRun<'a> = (&'a [u8], &'a [u8], u64, u64, u8);

const RUNS: [ExpectedRun<'_>; 9] = [
    (b"", b"", 0, 0, 0),
    (
        b"AV:N/AC:L/Au:N/C:N/I:N/A:N\r\n\nCVSS:3.1/AV:N",
        b"AV:N/AC:L/Au:N/C:N/I:N/A:N 0.0 low\n\
          error: invalid CVSS metric group component: ``\nCVSS:3.1/AV:N 0.0 none\n",
        2,
        1,
        1,
    ),
    (
        b"CVSS:3.1/AV:N/AC:L/PR:N/UI:N/S:U/C:H/I:H/A:H\nAV:N/AC:L/Au:N/C:N/I:N/A:C\ngarbage",
        b"CVSS:3.1/AV:N/AC:L/PR:N/UI:N/S:U/C:H/I:H/A:H 9.8 critical\n\
          AV:N/AC:L/Au:N/C:N/I:N/A:C 7.8 high\n\
          error: invalid CVSS metric group component: `garbage`\n",
        2,
        1,
        1,
    ),
    (
        b"CVSS:4.0/AV:N/AC:L/AT:N/PR:N/UI:N/VC:L/VI:H/VA:N/SC:N/SI:N/SA:N/E:P",
        b"CVSS:4.0/AV:N/AC:L/AT:N/PR:N/UI:N/VC:L/VI:H/VA:N/SC:N/SI:N/SA:N/E:P 7.8 high\n",
        1,
        0,
        0,
    ),
    (FIRST_LINE, FIRST_ANSWER, 1, 0, 0),
    (b"AV:N/AC:L/Au:N/C:N/I:N/A:C\r", FIRST_ANSWER, 1, 0, 0),
    (b"\xff", b"error: not UTF-8\n", 0, 1, 1),
    (
        b"\r",
        b"error: invalid CVSS metric group component: ``\n",
        0,
        1,
        1,
    ),
    (
        b"garbage\r\r\n",
        b"error: invalid CVSS metric group component: `garbage\r`\n",
        0,
        1,
        1,
    ),
];

const FIRST_LINE: &[u8] = b"AV:N/AC:L/Au:N/C:N/I:N/A:C\n";

const FIRST_ANSWER: &[u8] = b"AV:N/AC:L/Au:N/C:N/I:N/A:C 7.8 high\n";

#[test]
fn answers_lines_that_reads_cut(rt: HostRuntime) {
    for expected in &RUNS {
        for step in [1, 2, 3, 100_000] {
            is_answered(&rt, rt.alloc(), expected, step);
        }
    }
}

/// Answers lines, and compares what a writer has taken.
fn is_answered(rt: &impl Abort, alloc: Global, expected: &ExpectedRun<'_>, step: usize) {
    let (bytes, written, accepted, rejected, status) = *expected;
    let ended = Ended {
        outcome: Ok(Summary { accepted, rejected }),
        status,
        written,
    };
    ends_so(
        rt,
        steps_of(bytes, step, None),
        writer_of(alloc, usize::MAX, None),
        alloc,
        &ended,
    );
}

/// How a run ends, and what it has written.
#[derive(Drop)]
struct Ended<'a> {
    outcome: Result<Summary, RunFault>,
    status: u8,
    written: &'a [u8],
}

fn steps_of(bytes: &[u8], step: usize, failure: Option<ErrorKind>) -> Steps<'_> {
    Steps {
        bytes,
        step,
        failure,
        room: 0,
    }
}

fn writer_of(alloc: Global, room: usize, failure: Option<ErrorKind>) -> Narrow {
    Narrow {
        taken: Vec::new(alloc),
        room,
        failure,
    }
}

/// Runs, and compares how that ends and what the writer has taken.
fn ends_so(
    rt: &impl Abort,
    mut reader: Steps<'_>,
    mut writer: Narrow,
    alloc: Global,
    ended: &Ended<'_>,
) {
    let outcome = run(&Vectors {}, alloc, &mut reader, &mut writer);
    assert!(rt; outcome == ended.outcome && writer.taken.as_slice() == ended.written);
    assert!(rt; exit_status(&outcome) == ended.status);
}

/// Inputs after which the reader fails, and what is written: the answers of the lines that are
/// ended.
const CUT_OFF: [(&[u8], &[u8]); 3] = [
    (b"", b""),
    (b"AV:N/AC:L/Au:N/C:N/I:N/A:C\nAV:N", FIRST_ANSWER),
    (b"\n", b"error: invalid CVSS metric group component: ``\n"),
];

#[test]
fn answers_ended_lines_before_a_failed_read(rt: HostRuntime) {
    for row in &CUT_OFF {
        for kind in &KINDS {
            for step in [1, 100] {
                is_answered_until(&rt, rt.alloc(), row, *kind, step);
            }
        }
    }
}

/// Runs over a reader that fails.
fn is_answered_until(
    rt: &impl Abort,
    alloc: Global,
    row: &(&[u8], &[u8]),
    kind: ErrorKind,
    step: usize,
) {
    let ended = Ended {
        outcome: Err(RunFault::Read),
        status: 2,
        written: row.1,
    };
    let writer = writer_of(alloc, usize::MAX, None);
    ends_so(rt, steps_of(row.0, step, Some(kind)), writer, alloc, &ended);
}

/// Rooms that are less than the answers need, and what a writer takes that has them.
const ROOMS: [(usize, &[u8]); 4] = [(0, b""), (2, b"AV"), (3, b"AV:"), (10, b"AV:N/AC:L/")];

#[test]
fn writes_a_beginning_to_a_full_writer(rt: HostRuntime) {
    for row in &ROOMS {
        is_cut(&rt, rt.alloc(), row, None);
        for kind in &KINDS {
            is_cut(&rt, rt.alloc(), row, Some(*kind));
        }
    }
}

/// Runs over a writer that takes a beginning of the answers, fails once, and would take more.
fn is_cut(rt: &impl Abort, alloc: Global, row: &(usize, &[u8]), failure: Option<ErrorKind>) {
    let ended = Ended {
        outcome: Err(RunFault::Write),
        status: 2,
        written: row.1,
    };
    let reader = steps_of(FIRST_LINE, 100, None);
    ends_so(rt, reader, writer_of(alloc, row.0, failure), alloc, &ended);
}

#[test]
fn answers_a_line_longer_than_a_chunk(rt: HostRuntime) -> Result<(), Fail> {
    let line = long_line(rt.alloc())?;
    let answer = format!(in rt.alloc(); "error: invalid CVSS metric group component: `{line}`\n")?;
    for step in [1, 999, 1_000_000] {
        let expected = (line.as_bytes(), answer.as_bytes(), 0, 1, 1);
        is_answered(&rt, rt.alloc(), &expected, step);
    }
    Ok(())
}

fn long_line(alloc: Global) -> Result<String, AllocError> {
    "q".repeat(alloc, 200_000)
}

#[test]
fn reads_many_bytes_at_once(rt: HostRuntime) {
    let mut reader = steps_of(b"", 1, None);
    let mut writer = writer_of(rt.alloc(), 0, None);
    let outcome = run(&Vectors {}, rt.alloc(), &mut reader, &mut writer);
    assert!(rt; outcome.is_ok());
    assert!(rt; reader.room == 65_536);
}

#[test]
fn reports_refused_memory(rt: HostRuntime) {
    assert!(rt; exit_status(&Err(RunFault::Memory)) == 2);
}
