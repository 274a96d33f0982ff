ghost use Rattle.std.specs.Prelude.{◌≡◌, []};
ghost use Rattle.cvss_lines.specs.Answers.{Answer, is_accepted};
ghost use Rattle.cvss_lines.specs.Exit.{exit_status as status_of};
ghost use Rattle.cvss_lines.specs.Runs.{summary_of};
ghost use Rattle.cvss_lines.specs.private.Steps.{Counts};

/// How many lines a run accepted and rejected. Each count stops at `u64::MAX`.
#[derive(Clone, Copy, Debug, PartialEq, Eq)]
pub struct Summary {
    pub accepted: u64,
    pub rejected: u64,
}

impl Summary {
    pub(crate) fn new() -> Summary
        ensures { result ≡ summary_of [] }
    {
        Summary {
            accepted: 0,
            rejected: 0,
        }
    }

    /// Counts one more answer.
    pub(crate) fn count(&mut self, accepted: bool)
        ensures { (answer : Answer) → accepted ≡ is_accepted answer → Counts self.old answer self.new }
    {
        if accepted {
            self.accepted = self.accepted.saturating_add(1);
        } else {
            self.rejected = self.rejected.saturating_add(1);
        }
    }
}

/// The exit status of a run: 0 if no line was rejected, 1 if some were, 2 after a fault.
pub fn exit_status<F>(outcome: &Result<Summary, F>) -> u8
    ensures { result ≡ status_of outcome.now }
{
    match outcome {
        Ok(summary) if summary.rejected == 0 => 0,
        Ok(_) => 1,
        Err(_) => 2,
    }
}
