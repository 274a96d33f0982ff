//! What is asked of values: that they are equal, and that they are printed.

use std::alloc::{AllocError, Global};
use std::fmt;
use std::process::Abort;
use std::test::Fail;

/// What a test's helper ends with.
pub(crate) type Tried = Result<(), Fail>;

/// Compares what was found with what is expected, row by row.
pub(crate) fn are_equal<T: PartialEq>(rt: &impl Abort, rows: &[(T, T)]) {
    for (row, (found, expected)) in rows.iter().enumerate() {
        assert!(rt; found == expected, "row {row}");
    }
}

/// Compares each row with the next one, which is more.
pub(crate) fn ascend<T: PartialOrd, U>(rt: &impl Abort, rows: &[(T, U)]) {
    for pair in rows.windows(2) {
        assert!(rt; matches!(pair, [(less, _), (more, _)] if less < more));
    }
}

/// Prints each value, which gives its text.
pub(crate) fn are_printed<T>(rt: &impl Abort, alloc: Global, rows: &[(&str, T)]) -> Tried
where
    T: fmt::Display,
{
    for (text, value) in rows {
        prints(rt, alloc, value, text)?;
    }
    Ok(())
}

/// Compares what a value prints, also under options of a formatter, which change nothing.
pub(crate) fn prints<T: fmt::Display>(
    rt: &impl Abort,
    alloc: Global,
    value: &T,
    text: &str,
) -> Tried {
    let lines = styled(alloc, value)?;
    assert!(rt; are_lines_of(&lines, text), "{text}");
    Ok(())
}

/// What a value prints, without options and under some, line by line.
fn styled<T: fmt::Display>(alloc: Global, value: &T) -> Result<String, AllocError> {
    format!(in alloc; "{value}\n{value:>200}\n{value:<12}\n{value:*^9.3}\n{value:#}\n{value:+}")
}

fn are_lines_of(lines: &str, text: &str) -> bool {
    lines.split('\n').all(|line| line == text)
}
