//! The matches in a text.

ghost use Rattle.std.specs.Iterator.{item_count};
ghost use Rattle.std.specs.Prelude.{◌≡◌, ◌+◌, ◌<◌, ◌^◌, [], ◌∷◌, IfSome, MatchOption, length};
ghost use Rattle.cvss_matches.specs.Matches.{candidate_of, candidates_of};
ghost use Rattle.cvss_matches.specs.CandidatesLeft.{IsFirstFound, IsNext, NoneFound, as_candidate, candidates_after, candidates_left};
ghost use Rattle.cvss_matches.specs.private.Passing.{Passes};

use crate::matching::{Match, find_in};
use crate::part::{first_part, is_edge};
use crate::passing::no_slash;

/// The matches in a text, in order. It takes no memory, and looks at each byte a
/// bounded number of times.
#[derive(Clone, Copy, Debug)]
pub struct Matches<'a> {
    text: &'a [u8],
    /// The offset of the part that is looked at next.
    offset: usize,
}

impl<'a> Matches<'a> {
    /// Those of the whole text.
    pub fn of(text: &'a [u8]) -> Matches<'a>
        ensures { candidates_left result ≡ candidates_of text.now }
    {
        Matches { text, offset: 0 }
    }

    /// Those from an offset of the text on, with their offsets in the whole text.
    pub fn after(text: &'a [u8], offset: usize) -> Matches<'a>
        ensures { candidates_left result ≡ candidates_after text.now offset }
    {
        Matches { text, offset }
    }

    /// The first match from an offset of the text on, and the offset from which on the others are left.
    pub fn first_after(text: &'a [u8], offset: usize) -> Option<(Match<'a>, usize)>
        ensures { MatchOption result (NoneFound (candidates_after text.now offset))
            (λ first. IsFirstFound (candidates_after text.now offset) (as_candidate first.0)
            (candidates_after text.now first.1)) }
    {
        let mut left = Matches { text, offset };
        let found = left.find_next()?;
        Some((found, left.offset))
    }

    /// The next match.
    fn find_next(&mut self) -> Option<Match<'a>>
        ensures next { IsNext self.old result self.new }
        ensures text { self.new.text.now ≡ self.old.text.now }
    {
        self.pass_no_slash();
        while let Some((offset, part)) = self.cut_next() {
            if let Some(found) = find_in(offset, part) {
                return Some(found);
            }
            self.pass_after_run();
        }
        None
    }

    /// Where the next part begins, and its bytes.
    fn cut_next(&mut self) -> Option<(usize, &'a [u8])>
        ensures cut { MatchOption result (candidates_left self.old ≡ [])
            (λ part. candidates_left self.old
            ≡ candidate_of part.0 part.1.now ∷ candidates_left self.new) }
        ensures within { IfSome result (λ part. part.0 + length part.1.now < 2 ^ 64) }
        ensures text { self.new.text.now ≡ self.old.text.now }
    {
        let rest = self.text.get(self.offset..)?;
        if rest.is_empty() {
            return None;
        }
        let offset = self.offset;
        let length = first_part(rest);
        self.offset += length;
        Some((offset, &rest[..length]))
    }

    /// Passes over what is before the next run with a slash or a `%`.
    fn pass_no_slash(&mut self)
        ensures passes { Passes (candidates_left self.old) (candidates_left self.new) }
        ensures text { self.new.text.now ≡ self.old.text.now }
    {
        if let Some(rest) = self.text.get(self.offset..) {
            self.offset += no_slash(rest);
        }
    }

    /// As `pass_no_slash`, but after the end of a run, so that a run is passed once.
    fn pass_after_run(&mut self)
        ensures passes { Passes (candidates_left self.old) (candidates_left self.new) }
        ensures text { self.new.text.now ≡ self.old.text.now }
    {
        if let Some(byte) = self.text.get(self.offset)
            && !is_edge(*byte)
        {
            self.pass_no_slash();
        }
    }
}

impl<'a> Iterator for Matches<'a> {
    type Item = Match<'a>;

    ghost next_gives = { IsNext };

    ghost remaining = { item_count candidates_left };

    fn next(&mut self) -> Option<Match<'a>> {
        self.find_next()
    }
}
