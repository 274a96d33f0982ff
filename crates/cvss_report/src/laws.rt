//! Laws of names, words, records and rows, each the contract of a function that does nothing. A proof that
//! needs a law calls it.

ghost use Rattle.std.specs.Prelude.{◌≡◌, ◌↔◌, IsTrue, map};
ghost use Rattle.cvss_base.specs.declared.v2.MetricType as kind_v2;
ghost use Rattle.cvss_base.specs.declared.v3.MetricType as kind_v3;
ghost use Rattle.cvss_base.specs.declared.v4.MetricType as kind_v4;
ghost use Rattle.cvss_base.specs.Equality.{ClonesAlways, ClonesByValue};
ghost use Rattle.cvss_base.specs.V4Types.{declared};
ghost use Rattle.cvss_report.specs.declared.field.Field.TheVariants.{V2, V3, V4};
ghost use Rattle.cvss_report.specs.declared.format.Format.{Format};
ghost use Rattle.cvss_report.specs.Words.{AreWordsOf, HaveOneName};
ghost use Rattle.cvss_report.specs.WordsV2 as v2;
ghost use Rattle.cvss_report.specs.WordsV3 as v3;
ghost use Rattle.cvss_report.specs.WordsV4 as v4;
ghost use Rattle.cvss_report.specs.laws.Members.{AreMembers};
ghost use Rattle.cvss_metric.specs.v2.Table as table_v2;
ghost use Rattle.cvss_metric.specs.v3.Table as table_v3;
ghost use Rattle.cvss_metric.specs.v4.Table as table_v4;

use crate::{Expected, Field, Format, Gate, Scores, Tally};

/// Each value of a metric has a word, and no other value of the metric has it.
pub fn words_report_values()
    ensures v2 { (kind : kind_v2.MetricType) → AreWordsOf
        (map (λ row. row.0) (table_v2.rows_of kind)) (v2.words_of kind) }
    ensures v3 { (kind : kind_v3.MetricType) → AreWordsOf
        (map (λ row. row.0) (table_v3.rows_of kind)) (v3.words_of kind) }
    ensures v4 { (kind : kind_v4.MetricType) → AreWordsOf
        (table_v4.spellings_of kind) (v4.words_of kind) }
{}

/// Each metric of a version has a member, and no other metric of the version has it.
pub fn members_report_metrics()
    ensures v2 { HaveOneName v2.member_of table_v2.printed }
    ensures v3 { HaveOneName v3.member_of table_v3.printed }
    ensures v4 { HaveOneName v4.member_of table_v4.printed }
{}

/// The members of each version are in the order of their names, no two have one name, and each metric
/// has one.
pub fn members_are_in_order()
    ensures v2 { AreMembers v2.fields V2 table_v2.printed }
    ensures v3 { AreMembers v3.fields V3 table_v3.printed }
    ensures v4 { AreMembers v4.fields V4 declared }
{}

/// Two formats are equal exactly if they are one value.
pub fn equality_is_that_of_values()
    ensures format { (x y : Format) → IsTrue (⟦<Format as PartialEq>⟧.eq x y) ↔ (x ≡ y) }
{}

/// A clone of a member, of what it says, of a format, a gate, scores or a tally is that value.
pub fn clones_are_equal()
    ensures expected { ClonesByValue ⟦<Expected as Clone>⟧.is_clone }
    ensures field { ClonesByValue ⟦<Field as Clone>⟧.is_clone }
    ensures format { ClonesByValue ⟦<Format as Clone>⟧.is_clone }
    ensures gate { ClonesByValue ⟦<Gate as Clone>⟧.is_clone }
    ensures scores { ClonesByValue ⟦<Scores as Clone>⟧.is_clone }
    ensures tally { ClonesByValue ⟦<Tally as Clone>⟧.is_clone }
{}

/// To clone a member, what it says, a format, a gate, scores or a tally takes no memory, so it is never
/// refused.
pub fn values_are_cloned_without_memory()
    ensures expected { ClonesAlways ⟦<Expected as Clone>⟧.is_infallible }
    ensures field { ClonesAlways ⟦<Field as Clone>⟧.is_infallible }
    ensures format { ClonesAlways ⟦<Format as Clone>⟧.is_infallible }
    ensures gate { ClonesAlways ⟦<Gate as Clone>⟧.is_infallible }
    ensures scores { ClonesAlways ⟦<Scores as Clone>⟧.is_infallible }
    ensures tally { ClonesAlways ⟦<Tally as Clone>⟧.is_infallible }
{}
