//! How rows are written.

ghost use Rattle.std.specs.Prelude.{◌≡◌};
ghost use Rattle.cvss_triage.specs.Triage.{asked_of, style_of};

use crate::form::Form;
use crate::input::Input;
use crate::records::is_crlf;
use crate::triage::Triage;
use cvss_csv::Asked;

/// How rows are written.
#[derive(Drop)]
pub(crate) enum Style {
    /// In words.
    Words,
    /// As JSON objects, whose vectors may lack base metrics or not.
    Objects(bool),
    /// As records with six cells more, which end with a line feed, and a carriage return before it or none.
    Table(Asked, bool),
}

impl Style {
    /// How the rows of inputs are written.
    pub(crate) fn of(asked: &Triage<'_>, inputs: &[Input<'_>]) -> Style
        ensures { result ≡ style_of (asked_of asked.now) inputs.now }
    {
        match asked.form {
            Form::Lines if asked.json => Style::Objects(asked.allow_incomplete),
            Form::Lines => Style::Words,
            Form::Records => {
                let cells = Asked {
                    scoring: asked.scoring,
                    allow_incomplete: asked.allow_incomplete,
                    guarded: asked.guarded,
                    each: false,
                };
                Style::Table(cells, is_crlf(inputs))
            }
        }
    }
}
