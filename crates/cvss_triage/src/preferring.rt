//! The vector of a line, where one of several may be preferred.

ghost use Rattle.std.specs.Prelude.{◌≡◌, ◌↔◌, ◌∷◌, ◌++◌, [], Bool, IfErr, IfOk, IfSome, IsTrue, List, MatchOption, Some};
ghost use Rattle.cvss_vector.specs.Answers.{HasScore};
ghost use Rattle.cvss_vector.specs.Evaluation.{version_of};
ghost use Rattle.cvss_vector.specs.declared.scoring.Scoring.{Scoring};
ghost use Rattle.cvss_vector.specs.declared.vector.Cvss.{Cvss as AnyCvss};
ghost use Rattle.cvss_triage.specs.Preferences.{IsHighest, IsNonePicked, IsPicked, Lacks, Scores};
ghost use Rattle.cvss_triage.specs.Reading.{IsChosen, IsReason};
ghost use Rattle.cvss_triage.specs.declared.overrides.Override.{Override};
ghost use Rattle.cvss_triage.specs.declared.preferring.Preference.TheVariants.{Highest, Of};
ghost use Rattle.cvss_triage.specs.private.Picking.{IsBest};
ghost use Rattle.cvss_triage.specs.private.Steps.{AreOwnMetrics};

use crate::ranking::Rules;
use crate::reading::{Reason, are_equal, vector_of};
use cvss_matches::Matches;
use cvss_vector::{Cvss, Version};

/// Which vector of a line is ranked, where its matches denote several.
#[derive(Clone, Copy, Drop)]
pub enum Preference {
    /// That of this version, if it has one of it.
    Of(Version),
    /// The first with the highest score.
    Highest,
}

/// A vector, and the tenths of its score with own metrics.
#[derive(Clone, Copy)]
pub(crate) struct Scored {
    pub(crate) cvss: Cvss,
    pub(crate) tenths: u8,
}

/// The vector of a line: the one that its matches denote, or of several the one that is preferred.
///
/// # Errors
///
/// Why there is none.
pub(crate) fn chosen<'a>(line: &'a [u8], rules: &Rules) -> Result<Cvss, Reason<'a>>
    ensures vector { (overrides : List Override) → AreOwnMetrics overrides rules.now.own
        → IfOk result (IsChosen rules.now.prefer overrides rules.now.scoring
        rules.now.allow_incomplete line.now) }
    ensures scored { IfOk result (λ cvss. HasScore cvss) }
    ensures reason { (overrides : List Override) → AreOwnMetrics overrides rules.now.own
        → IfErr result (IsReason rules.now.prefer overrides rules.now.scoring
        rules.now.allow_incomplete line.now) }
{
    match vector_of(line) {
        Ok(cvss) => Ok(cvss),
        Err(Reason::SeveralVectors) => match picked(line, rules) {
            Some(cvss) => Ok(cvss),
            None => Err(Reason::SeveralVectors),
        },
        Err(reason) => Err(reason),
    }
}

/// The vector of a line that is preferred, if it is said which is to be.
fn picked(line: &[u8], rules: &Rules) -> Option<Cvss>
    ensures picked { (overrides : List Override) → AreOwnMetrics overrides rules.now.own
        → MatchOption result
        (IsNonePicked rules.now.prefer overrides rules.now.allow_incomplete line.now)
        (IsPicked rules.now.prefer overrides rules.now.scoring rules.now.allow_incomplete
        line.now) }
    ensures scored { IfSome result (λ cvss. HasScore cvss) }
{
    match rules.prefer {
        Some(preference) => preferred(line, preference, rules),
        None => None,
    }
}

/// The vector of a line that is preferred.
fn preferred(line: &[u8], preference: Preference, rules: &Rules) -> Option<Cvss>
    ensures picked { (overrides : List Override) → AreOwnMetrics overrides rules.now.own
        → MatchOption result
        (IsNonePicked (Some preference) overrides rules.now.allow_incomplete line.now)
        (IsPicked (Some preference) overrides rules.now.scoring rules.now.allow_incomplete
        line.now) }
    ensures scored { IfSome result (λ cvss. HasScore cvss) }
{
    match preference {
        Preference::Of(version) => only_of(line, version),
        Preference::Highest => highest(line, rules),
    }
}

/// The only vector of a version in a line, if each match denotes a vector.
fn only_of(line: &[u8], version: Version) -> Option<Cvss>
    ensures picked { (overrides : List Override) (scoring : Scoring) (allow_incomplete : Bool)
        → MatchOption result
        (IsNonePicked (Some (Of version)) overrides allow_incomplete line.now)
        (IsPicked (Some (Of version)) overrides scoring allow_incomplete line.now) }
    ensures scored { IfSome result (λ cvss. HasScore cvss) }
{
    let mut matches = Matches::of(line);
    let mut only = None;
    while let Some(found) = matches.next() {
        let cvss = Cvss::read_bytes(found.text)?;
        if is_of(&cvss, version) {
            if !is_same(&only, &cvss) {
                return None;
            }
            only = Some(cvss);
        }
    }
    only
}

/// Whether a vector is of a version.
fn is_of(cvss: &Cvss, version: Version) -> bool
    ensures { IsTrue result ↔ (version_of cvss.now ≡ version) }
{
    cvss.version() == version
}

/// Whether two vectors are one, if there are two.
fn is_same(one: &Option<Cvss>, other: &Cvss) -> bool
    ensures { IsTrue result ↔ IfSome one.now (λ one. one ≡ other.now) }
{
    match one {
        Some(one) => are_equal(one, other),
        None => true,
    }
}

/// The first vector of a line with the highest score, if each match denotes a vector that has one.
fn highest(line: &[u8], rules: &Rules) -> Option<Cvss>
    ensures picked { (overrides : List Override) → AreOwnMetrics overrides rules.now.own
        → MatchOption result
        (IsNonePicked (Some Highest) overrides rules.now.allow_incomplete line.now)
        (IsPicked (Some Highest) overrides rules.now.scoring rules.now.allow_incomplete
        line.now) }
    ensures scored { IfSome result (λ cvss. HasScore cvss) }
{
    let mut matches = Matches::of(line);
    let mut best = None;
    while let Some(found) = matches.next() {
        let cvss = Cvss::read_bytes(found.text)?;
        let tenths = tenths_of(cvss, rules)?;
        best = Some(higher(best, Scored { cvss, tenths }));
    }
    match best {
        Some(best) => Some(best.cvss),
        None => None,
    }
}

/// The tenths of a vector's score with own metrics, unless it lacks base metrics then and may not.
fn tenths_of(cvss: Cvss, rules: &Rules) -> Option<u8>
    requires { HasScore cvss }
    ensures { (overrides : List Override) → AreOwnMetrics overrides rules.now.own
        → MatchOption result (Lacks overrides rules.now.allow_incomplete cvss)
        (Scores overrides rules.now.scoring rules.now.allow_incomplete cvss) }
{
    let vector = rules.own.in_vector(cvss);
    match vector.missing_by(rules.allow_incomplete) {
        None => Some(vector.tenths_as(rules.scoring)),
        Some(_) => None,
    }
}

/// The first with the highest score of some vectors, of which this is the best, and a vector after them.
fn higher(best: Option<Scored>, next: Scored) -> Scored
    ensures highest { (overrides : List Override) (scoring : Scoring) (allow_incomplete : Bool)
        (vectors : List AnyCvss) → IsBest overrides scoring allow_incomplete vectors best
        → Scores overrides scoring allow_incomplete next.cvss next.tenths
        → IsHighest overrides scoring allow_incomplete (vectors ++ next.cvss ∷ [])
        result.cvss result.tenths }
    ensures scored { IfSome best (λ best. HasScore best.cvss)
        → HasScore next.cvss → HasScore result.cvss }
{
    match best {
        Some(best) if best.tenths >= next.tenths => best,
        _ => next,
    }
}
