//! Finds vectors in a text of any bytes, as in a sentence, in parentheses or in a link, and answers lines
//! by what is found in them.
#![tactic(auto)]

mod annotating;
mod decoding;
mod finding;
mod form;
mod gating;
mod hint;
pub mod laws;
mod line;
mod location;
mod matches;
mod matching;
mod objects;
mod part;
mod passing;
mod prefix;
mod unprefixed;

pub use finding::Finding;
pub use form::Form;
pub use hint::PrefixHint;
pub use matches::Matches;
pub use matching::Match;
