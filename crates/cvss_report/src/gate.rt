//! Which vectors a command shows, and on which it fails.

ghost use Rattle.std.specs.Prelude.{◌≡◌};
ghost use Rattle.cvss_report.specs.Gates.{fails, is_failing, is_from, is_passed_over, shows};

/// Which vectors a command shows, and on which it fails, by their scores. It says nothing of texts that
/// are rejected.
#[derive(Clone, Copy, Drop)]
pub struct Gate {
    /// In tenths. A vector that scores less is passed over: it is not shown, and nothing fails on it.
    pub minimum: u8,
    /// In tenths. The command fails on a vector that scores at least this.
    pub fail_on: Option<u8>,
    /// Nothing is printed at all, and the exit status is the same.
    pub quiet: bool,
}

impl Gate {
    /// Whether a vector with so many tenths is one of those that are shown.
    pub fn shows(self, tenths: u8) -> bool
        ensures { result ≡ shows self tenths }
    {
        self.minimum <= tenths
    }

    /// Whether the command fails on a vector with so many tenths, which then is one that it shows.
    pub fn fails(self, tenths: u8) -> bool
        ensures { result ≡ fails self tenths }
    {
        self.shows(tenths) && is_from(self.fail_on, tenths)
    }

    /// Whether a text is passed over, by its score in tenths if it has one.
    pub fn passes_over(self, score: Option<u8>) -> bool
        ensures { result ≡ is_passed_over self score }
    {
        match score {
            Some(tenths) => !self.shows(tenths),
            None => false,
        }
    }

    /// Whether the command fails on a text, by its score in tenths if it has one.
    pub fn fails_on(self, score: Option<u8>) -> bool
        ensures { result ≡ is_failing self score }
    {
        match score {
            Some(tenths) => self.fails(tenths),
            None => false,
        }
    }
}

/// Whether a score is at least this one, if there is one.
fn is_from(least: Option<u8>, tenths: u8) -> bool
    ensures { result ≡ is_from least tenths }
{
    match least {
        Some(least) => least <= tenths,
        None => false,
    }
}
