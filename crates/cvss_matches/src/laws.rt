//! Laws, each the contract of a function that does nothing.

ghost use Rattle.std.specs.Prelude.{◌≡◌, ℕ, Bool, List, [], ◌∷◌, All, None, Option};
ghost use Rattle.cvss_lines.specs.Answers.{Answer};
ghost use Rattle.cvss_vector.specs.declared.scoring.Scoring.{Scoring};
ghost use Rattle.cvss_vector.specs.declared.setting.Version.{Version};
ghost use Rattle.cvss_matches.specs.Answers.{find_rule};
ghost use Rattle.cvss_matches.specs.Matches.{IsAccepted, candidates_of};
ghost use Rattle.cvss_matches.specs.declared.form.Form.{Form};
ghost use Rattle.cvss_matches.specs.declared.form.Form.TheVariants.{Located};
ghost use Rattle.cvss_matches.specs.declared.hint.PrefixHint.{PrefixHint};
ghost use Rattle.cvss_matches.specs.declared.matching.Match.{Match};
ghost use Rattle.cvss_matches.specs.declared.matches.Matches.{Matches};
ghost use Rattle.cvss_matches.specs.laws.Alone.{ReportsOfAll};
ghost use Rattle.cvss_matches.specs.laws.Offsets.{AreInOrder, StandsIn};
ghost use Rattle.cvss_matches.specs.laws.Whole.{IsMatchedBetween, IsWhole};

use crate::form::Form;
use crate::hint::PrefixHint;
use crate::matches::Matches;
use crate::matching::Match;

/// Each candidate is at its offset in the text. Candidates come in order, and do not overlap.
#[tactic(auto, using(crate::proofs::OffsetLemmas::matches_are_at, crate::proofs::OffsetLemmas::matches_ordered))]
pub fn matches_are_at_their_offsets()
    ensures stand { (text : List ℕ) → All (StandsIn text) (candidates_of text) }
    ensures ordered { (text : List ℕ) → AreInOrder (candidates_of text) }
{}

/// A text that is whole (`IsWhole`) is one candidate wherever the byte before it is in no run and the
/// byte after it in no vector, or where the text around it ends.
#[tactic(auto, using(crate::proofs::WholeLemmas::matched_between, crate::proofs::WholeLemmas::matched_alone))]
pub fn whole_texts_are_matches()
    ensures between { (before text after : List ℕ) → IsWhole text
        → IsMatchedBetween before text after }
    ensures alone { (text : List ℕ) → IsWhole text
        → candidates_of text ≡ record { offset = 0; text = text } ∷ [] }
{}

/// A text that is accepted as a vector is one candidate as a whole.
#[tactic(auto, using(crate::proofs::AcceptedLemmas::accepted_alone, crate::proofs::AcceptedLemmas::accepted_between))]
pub fn accepted_texts_are_matches()
    ensures whole { (text : List ℕ) → IsAccepted text → IsWhole text }
    ensures between { (before text after : List ℕ) → IsAccepted text
        → IsMatchedBetween before text after }
    ensures alone { (text : List ℕ) → IsAccepted text
        → candidates_of text ≡ record { offset = 0; text = text } ∷ [] }
{}

/// A line that is one vector and nothing else is answered by what `cvss score` answers to it, after
/// its number and its column, where there is no gate.
pub fn only_vectors_are_reported_as_they_are()
    ensures { (scoring : Scoring) → (allow_incomplete : Bool) → (assumed : Option Version)
        → (prefix : List ℕ) → (number : ℕ) → (line : List ℕ) → (answer : Answer) → IsAccepted line
        → find_rule Located scoring allow_incomplete assumed None prefix number line answer
        → ReportsOfAll scoring allow_incomplete prefix number line answer }
{
    accepted_texts_are_matches();
}

/// A clone of a match, of the matches that are left, of a form or of a hint is that value.
pub fn clones_are_equal()
    ensures found { (x clone : Match) → ⟦<Match<'static> as Clone>⟧.is_clone x clone → clone ≡ x }
    ensures matches { (x clone : Matches) → ⟦<Matches<'static> as Clone>⟧.is_clone x clone → clone ≡ x }
    ensures form { (x clone : Form) → ⟦<Form as Clone>⟧.is_clone x clone → clone ≡ x }
    ensures hint { (x clone : PrefixHint) → ⟦<PrefixHint as Clone>⟧.is_clone x clone → clone ≡ x }
{}

/// Cloning them takes no memory, so it never fails.
pub fn values_are_cloned_without_memory()
    ensures found { (x : Match) → ⟦<Match<'static> as Clone>⟧.is_infallible x }
    ensures matches { (x : Matches) → ⟦<Matches<'static> as Clone>⟧.is_infallible x }
    ensures form { (x : Form) → ⟦<Form as Clone>⟧.is_infallible x }
    ensures hint { (x : PrefixHint) → ⟦<PrefixHint as Clone>⟧.is_infallible x }
{}
