//! Objects of steps.

ghost use Rattle.std.specs.Prelude.{◌≡◌, ◌≤◌, IfSome};
ghost use Rattle.std.specs.Option.{option_map};
ghost use Rattle.cvss_explain.specs.Steps.{entry_member, severity_member, value_text};
ghost use Rattle.cvss_json.specs.Scalars.{member_room, member_view, scalar_room, scalar_text};

use crate::step::{Amount, Step};
use cvss_json::{Member, Members, Page, Scalar, put_member};

/// A member of an object of steps.
#[derive(Clone, Copy)]
pub enum Entry {
    /// The amount of the step at an index, by its key.
    Value(usize),
    /// The severity of the score that is the amount of the step at an index.
    Severity(usize),
}

/// Steps, for an object of them.
#[derive(Drop)]
pub(crate) struct Table<'s> {
    pub(crate) steps: &'s [Step],
}

impl Members<Entry> for Table<'_> {
    ghost text_at = { λ table entry. entry_member table.steps.now entry };

    ghost room_at = { λ _ _. 58 };

    fn put_at(&self, page: &mut Page, later: bool, entry: Entry) -> bool {
        let Some((name, value)) = member(self.steps, entry) else {
            return later;
        };
        put_member(page, later, name, value);
        true
    }
}

/// The member of an entry, if the steps have it.
fn member(steps: &[Step], entry: Entry) -> Option<Member<'static>>
    ensures text { entry_member steps.now entry ≡ option_map member_view result }
    ensures room { IfSome result (λ member. member_room member ≤ 58) }
{
    match entry {
        Entry::Value(index) => {
            let step = steps.get(index)?;
            Some((step.quantity.words().0, value(step.amount)))
        }
        Entry::Severity(index) => severity(steps.get(index)?.amount),
    }
}

fn value(amount: Amount) -> Scalar<'static>
    ensures text { scalar_text result ≡ value_text amount }
    ensures room { scalar_room result ≤ 32 }
{
    match amount {
        Amount::Number(count) => Scalar::Decimal(count),
        Amount::Score(tenths) | Amount::Rated(_, tenths) => Scalar::Tenths(tenths),
    }
}

#[tactic(auto, using(crate::proofs::ShortLemmas::severity_short))]
fn severity(amount: Amount) -> Option<Member<'static>>
    ensures text { severity_member amount ≡ option_map member_view result }
    ensures room { IfSome result (λ member. member_room member ≤ 58) }
{
    match amount {
        Amount::Rated(bounds, tenths) => {
            let severity = bounds.severity_of(tenths);
            Some(("severity", Scalar::Text(severity.as_str())))
        }
        Amount::Number(_) | Amount::Score(_) => None,
    }
}
