//! What is passed over at once: runs of bytes without a slash and without a `%`, so that nothing in
//! them is found.

ghost use Rattle.std.specs.Prelude.{◌≡◌, ◌++◌, ◌≤◌, false, length, take, drop};
ghost use Rattle.cvss_matches.specs.laws.Whole.{EndsOutside};
ghost use Rattle.cvss_matches.specs.Parts.{parts_of};
ghost use Rattle.cvss_matches.specs.private.Passing.{has_mark};

use crate::part::is_edge;
use cvss_lines::either_or_len;

/// How many bytes are before the run that has the first slash or `%`; all, where none has one.
pub(crate) fn no_slash(text: &[u8]) -> usize
    ensures within { result ≤ length text.now }
    ensures unmarked { has_mark (take result text.now) ≡ false }
    ensures cut { parts_of text.now ≡ parts_of (take result text.now) ++ parts_of (drop result text.now) }
{
    let end = either_or_len(text, b'/', b'%');
    if end == text.len() {
        end
    } else {
        run_start(text, end)
    }
}

/// Where the run before an offset begins; the offset, where the byte before it is in no run.
fn run_start(text: &[u8], end: usize) -> usize
    requires { end ≤ length text.now }
    ensures within { result ≤ end }
    ensures start { EndsOutside (take result text.now) }
{
    let mut start = end;
    while start > 0 && is_edge(text[start - 1]) {
        start -= 1;
    }
    start
}
