//! The groups of metrics of CVSS v4.0, and the levels that make up a class (v4.0 specification, section
//! 8.2).

ghost use Rattle.std.specs.Prelude.{◌≡◌, ◌+◌, ◌<◌, ◌≤◌, ◌++◌, length, pos};
ghost use Rattle.cvss_explain.specs.Decimal.{nearest_to};
ghost use Rattle.cvss_explain.specs.V4.{group_text, groups_text, levels, members_text};
ghost use Rattle.cvss_json.specs.declared.member.Scalar.TheVariants.{Decimal};
ghost use Rattle.cvss_json.specs.Scalars.{scalar_room, scalar_text};

use crate::decimal::of_parts;
use cvss_json::{Page, Scalar, Scalars, put_object};
use cvss_score::v4::scoring::classes::MacroVector;
use cvss_score::v4::scoring::explanation::GroupExplanation;
use cvss_vector::v4::Explanation;

/// The levels of a class.
pub fn levels(class: &MacroVector) -> [u8; 6]
    ensures { result ≡ levels class.now }
{
    [
        class.eq1, class.eq2, class.eq3, class.eq4, class.eq5, class.eq6,
    ]
}

/// Writes the array of the five groups, which is empty without impact.
pub(crate) fn put_groups(page: &mut Page, explanation: &Explanation)
    requires { length page.old + 2300 ≤ 4096 }
    ensures text { page.new ≡ page.old
        ++ groups_text explanation.now.class explanation.now.value explanation.now.groups }
    ensures room { length page.new ≤ length page.old + 2300 }
{
    let Some(groups) = &explanation.groups else {
        page.push(b"[]");
        return;
    };
    let (class, value) = (&explanation.class, explanation.value);
    page.push(b"[");
    put_group(page, "EQ1", &[class.eq1], value, &groups.eq1);
    page.push(b",");
    put_group(page, "EQ2", &[class.eq2], value, &groups.eq2);
    page.push(b",");
    let both = [class.eq3, class.eq6];
    put_group(page, "EQ3+EQ6", &both, value, &groups.eq3_eq6);
    page.push(b",");
    put_group(page, "EQ4", &[class.eq4], value, &groups.eq4);
    page.push(b",");
    put_group(page, "EQ5", &[class.eq5], value, &groups.eq5);
    page.push(b"]");
}

/// Writes what a group of metrics, of this name and level, contributes to the score below a value: also
/// the gap to the next lower class, its value, and the group's share of the mean.
fn put_group(page: &mut Page, name: &'static str, level: &[u8], value: u8, group: &GroupExplanation)
    requires short { length name.now ≤ 7 }
    requires level { length level.now ≤ 2 }
    requires room { length page.old + 450 ≤ 4096 }
    ensures text { page.new ≡ page.old ++ group_text value (name.now, level.now, group.now) }
    ensures room { length page.new ≤ length page.old + 450 }
{
    match &group.next {
        None => {
            let null = Scalar::Null;
            put_members(page, name, level, group, (null, null, null, null));
        }
        Some(next) => {
            let gap = Scalar::Tenths(value.saturating_sub(next.value));
            let class = levels(&next.class);
            let next_value = Scalar::Tenths(next.value);
            let next = (
                gap,
                Scalar::Digits(&class),
                next_value,
                fraction(group.taken, 8400),
            );
            put_members(page, name, level, group, next);
        }
    }
}

/// The gap to the next lower class, this class, its value, and the group's share of the mean.
type Next<'a> = (Scalar<'a>, Scalar<'a>, Scalar<'a>, Scalar<'a>);

/// Writes what a group contributes, with these of its next lower class.
fn put_members<'a>(
    page: &mut Page,
    name: &'static str,
    level: &'a [u8],
    group: &GroupExplanation,
    next: Next<'a>,
)
    requires short { length name.now ≤ 7 }
    requires level { length level.now ≤ 2 }
    requires next { scalar_room next.0 + scalar_room next.1 + scalar_room next.2
        + scalar_room next.3 ≤ 250 }
    requires room { length page.old + 450 ≤ 4096 }
    ensures text { page.new ≡ page.old
        ++ members_text (name.now, level.now, group.now) (
          scalar_text next.entry.0,
          scalar_text next.entry.1,
          scalar_text next.entry.2,
          scalar_text next.entry.3,
        ) }
    ensures room { length page.new ≤ length page.old + 450 }
{
    let (gap, class, value, share) = next;
    put_object(
        page,
        &Scalars {},
        &[
            ("class", Scalar::Digits(level)),
            ("depth", Scalar::Whole(u64::from(group.depth))),
            ("distance", Scalar::Whole(u64::from(group.distance))),
            ("gap", gap),
            ("group", Scalar::Text(name)),
            ("next", class),
            ("nextValue", value),
            ("share", share),
        ],
    );
}

/// So many parts of a point.
pub(crate) fn fraction(count: u32, parts: u32) -> Scalar<'static>
    requires { 0 < parts }
    ensures { result ≡ Decimal (pos (nearest_to count parts)) }
{
    Scalar::Decimal(of_parts(count, parts))
}
