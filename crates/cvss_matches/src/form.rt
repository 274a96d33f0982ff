//! The form in which the vectors in a line are reported.

ghost use Rattle.std.specs.Prelude.{◌≡◌};
ghost use Rattle.cvss_matches.specs.Answers.{deciding, shows_all};

use cvss_vector::Scoring;

/// The form in which the vectors in a line are reported.
#[derive(Clone, Copy, Drop)]
pub enum Form {
    /// Each by a text: where it is, and what `cvss score` answers to it.
    Located,
    /// Each by a JSON object: the file, if there are several, the line, the column and the text of
    /// the vector, and the members of `cvss score --json`.
    Object,
    /// The line is repeated, and after it are a tab and what `cvss score` answers, for the first
    /// vector or for all.
    Annotated { all: bool },
}

impl Form {
    /// Whether the answers to all vectors of a line are shown.
    pub(crate) fn shows_all(self) -> bool
        ensures { result ≡ shows_all self }
    {
        match self {
            Form::Located | Form::Object => true,
            Form::Annotated { all } => all,
        }
    }

    /// Which score of a vector a gate goes by, where this one is printed. Objects have all scores.
    pub(crate) fn deciding(self, scoring: Scoring) -> Scoring
        ensures { result ≡ deciding self scoring }
    {
        match self {
            Form::Object => Scoring::Overall,
            Form::Located | Form::Annotated { .. } => scoring,
        }
    }
}
