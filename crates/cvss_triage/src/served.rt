//! What triage comes to.

ghost use Rattle.std.specs.Prelude.{◌≡◌};
ghost use Rattle.std.specs.List.{list_any};
ghost use Rattle.cvss_report.specs.Gates.{fails};
ghost use Rattle.cvss_triage.specs.Inputs.{is_unread};
ghost use Rattle.cvss_triage.specs.Shown.{after_gate};
ghost use Rattle.cvss_triage.specs.Triage.{served_of, shows};

use crate::input::Input;
use crate::ranking::BadLine;
use crate::row::Row;
use cvss_frame::Served;
use cvss_report::Gate;

/// What triage comes to by which lines have no row and which inputs can be ranked.
pub(crate) fn served_of(bad: &[BadLine<'_>], inputs: &[Input<'_>]) -> Served
    ensures { result ≡ served_of bad.now inputs.now }
{
    Served {
        rejected: !bad.is_empty(),
        unread: is_any_unread(inputs),
        stopped: None,
    }
}

fn is_any_unread(inputs: &[Input<'_>]) -> bool
    ensures { result ≡ list_any is_unread inputs.now }
{
    inputs.iter().any(|input| input.is_unread())
}

/// Whether rows are shown: unless a line has none or an input is unread and triage is not to go on then.
pub(crate) fn shows(keep_going: bool, served: &Served) -> bool
    ensures { result ≡ shows keep_going served.now }
{
    keep_going || !(served.rejected || served.unread)
}

/// What triage comes to, where it fails on a row that is shown.
pub(crate) fn after_gate(gate: Gate, rows: &[Row<'_>], served: Served) -> Served
    ensures { result ≡ after_gate gate rows.now served }
{
    Served {
        rejected: served.rejected || fails_on_any(gate, rows),
        ..served
    }
}

fn fails_on_any(gate: Gate, rows: &[Row<'_>]) -> bool
    ensures { result ≡ list_any (λ row. fails gate row.tenths) rows.now }
{
    rows.iter().any(|row| gate.fails(row.tenths))
}
