//! How a text is cut at the delimiters that are outside quotes.

ghost use Rattle.std.specs.Prelude.{◌≤◌, MatchResult, length, take};
ghost use Rattle.cvss_csv.specs.private.Cutting.{IsFirstPiece, IsWithin};

use crate::state::{QUOTE, State};
use cvss_lines::either_or_len;

/// The first piece of the bytes, which begin in this state, and what follows the delimiter that ends it.
///
/// # Errors
///
/// The state after all of the bytes, where no piece ends in them.
pub(crate) fn cut_first(delimiter: u8, state: State, bytes: &[u8]) -> Result<(&[u8], &[u8]), State>
    ensures { MatchResult result
        (λ cut. IsFirstPiece delimiter state bytes.now cut.0.now cut.1.now)
        (λ after. IsWithin delimiter state bytes.now after) }
{
    let mut now = state;
    let mut at = 0;
    while at < bytes.len() {
        let (run, after) = pass_run(delimiter, now, &bytes[at..]);
        now = after;
        at += run;
        if at < bytes.len() {
            let byte = bytes[at];
            if now.is_end(delimiter, byte) {
                return Ok((&bytes[..at], &bytes[at + 1..]));
            }
            now = now.next(byte);
            at += 1;
        }
    }
    Err(now)
}

/// How many bytes are before the next quote and, outside quotes, before the next delimiter; and the
/// state after them.
#[inline(always)]
fn pass_run(delimiter: u8, state: State, bytes: &[u8]) -> (usize, State)
    ensures within { result.0 ≤ length bytes.now }
    ensures passed { IsWithin delimiter state (take result.0 bytes.now) result.1 }
{
    if state.is_quoted() {
        return (either_or_len(bytes, QUOTE, QUOTE), state);
    }
    let run = either_or_len(bytes, QUOTE, delimiter);
    if run == 0 {
        return (0, state);
    }
    (run, State::after_unquoted(bytes[run - 1]))
}
