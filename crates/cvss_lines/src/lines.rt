ghost use Rattle.std.specs.Prelude.{◌≡◌, ◌≢◌, ◌<◌, ◌++◌, [], ◌∷◌, All, MatchOption, length};
ghost use Rattle.cvss_lines.specs.Lines.{line_text, lines};

use crate::search::either_or_len;

/// The first line of a whole input, and what follows it.
#[tactic(auto, using(crate::proofs::LinesLemmas::one_line))]
pub fn first_line(input: &[u8]) -> Option<(&[u8], &[u8])>
    ensures { MatchOption result (lines input.now ≡ [])
        (λ cut. (lines input.now ≡ cut.0.now ∷ lines cut.1.now)
        × (length cut.1.now < length input.now)) }
{
    match cut_at_line_end(input) {
        Some((piece, after)) => Some((line_text(piece), after)),
        None if input.is_empty() => None,
        None => Some((line_text(input), &[])),
    }
}

/// The bytes before and after the first byte 10.
pub fn cut_at_line_end(bytes: &[u8]) -> Option<(&[u8], &[u8])>
    ensures { MatchOption result (All (λ b. b ≢ 10) bytes.now)
        (λ cut. All (λ b. b ≢ 10) cut.0.now × (bytes.now ≡ cut.0.now ++ 10 ∷ cut.1.now)) }
{
    let end = either_or_len(bytes, b'\n', b'\n');
    if end == bytes.len() {
        return None;
    }
    Some((&bytes[..end], &bytes[end + 1..]))
}

/// A line's text: its piece of the input less the one byte 13 at its end.
pub fn line_text(piece: &[u8]) -> &[u8]
    ensures { result.now ≡ line_text piece.now }
{
    match piece.split_last() {
        Some((b'\r', text)) => text,
        _ => piece,
    }
}
