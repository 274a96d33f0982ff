//! The records of a text, one after another.

ghost use Rattle.std.specs.Prelude.{◌≡◌, [], MatchOption, false};
ghost use Rattle.cvss_csv.specs.Fields.{state_after};
ghost use Rattle.cvss_csv.specs.Records.{IsFirstRecord, ended_record, is_open, records};
ghost use Rattle.cvss_csv.specs.declared.state.State.TheVariants.{Start};

use crate::cutting::cut_first;
use crate::state::{LINE_FEED, State};

/// A record of a text.
#[derive(Drop)]
pub struct CutRecord<'a> {
    /// Its fields with the commas between them.
    pub body: &'a [u8],
    /// A line feed, with a carriage return before it or not; nothing, where the end of the text ends it.
    pub line_end: &'static [u8],
    /// Whether its last field is quoted and not closed.
    pub unclosed: bool,
}

/// The first record of a text, and what follows it. An empty text has none. It takes no memory, and looks at
/// each byte of the record once.
pub fn first_record(text: &[u8]) -> Option<(CutRecord<'_>, &[u8])>
    ensures { MatchOption result (records text.now ≡ [])
        (λ cut. IsFirstRecord text.now cut.0 cut.1.now) }
{
    match cut_first(LINE_FEED, State::Start, text) {
        Ok((piece, rest)) => Some((CutRecord::ended(piece), rest)),
        Err(_) if text.is_empty() => None,
        Err(after) => Some((CutRecord::last(text, after), &[])),
    }
}

impl<'a> CutRecord<'a> {
    /// The record that a line feed ends.
    pub(crate) fn ended(piece: &'a [u8]) -> CutRecord<'a>
        requires { is_open piece.now ≡ false }
        ensures body { result.body.now ≡ (ended_record piece.now).body }
        ensures line_end { result.line_end.now ≡ (ended_record piece.now).line_end }
        ensures unclosed { result.unclosed ≡ is_open result.body.now }
    {
        let (body, line_end) = cut_line_end(piece);
        CutRecord {
            body,
            line_end,
            unclosed: false,
        }
    }

    /// The record that the end of a text ends, after which the state is this.
    pub(crate) fn last(body: &'a [u8], after: State) -> CutRecord<'a>
        requires { state_after Start body.now ≡ after }
        ensures body { result.body.now ≡ body.now }
        ensures line_end { result.line_end.now ≡ [] }
        ensures unclosed { result.unclosed ≡ is_open body.now }
    {
        CutRecord {
            body,
            line_end: b"",
            unclosed: after.is_quoted(),
        }
    }
}

/// The fields of the record that a line feed ends, and its line end.
fn cut_line_end(piece: &[u8]) -> (&[u8], &'static [u8])
    ensures body { result.0.now ≡ (ended_record piece.now).body }
    ensures line_end { result.1.now ≡ (ended_record piece.now).line_end }
{
    match piece.split_last() {
        Some((b'\r', body)) => (body, b"\r\n"),
        _ => (piece, b"\n"),
    }
}
