//! How many records, or vectors of them, are accepted and rejected.

ghost use Rattle.std.specs.Prelude.{◌≡◌, []};
ghost use Rattle.cvss_csv.specs.Runs.{summary_of};
ghost use Rattle.cvss_csv.specs.private.Counting.{Counts};

use cvss_lines::Summary;

/// Before the first record.
pub(crate) fn nothing_counted() -> Summary
    ensures { result ≡ summary_of [] }
{
    Summary {
        accepted: 0,
        rejected: 0,
    }
}

/// Counts one more, if it is accepted or rejected.
pub(crate) fn count(summary: &mut Summary, counted: Option<bool>)
    ensures { Counts summary.old counted summary.new }
{
    match counted {
        None => {}
        Some(true) => summary.accepted = summary.accepted.saturating_add(1),
        Some(false) => summary.rejected = summary.rejected.saturating_add(1),
    }
}
