//! The options that choose and count vectors by their scores.

ghost use Rattle.std.specs.Prelude.{◌≡◌};
ghost use Rattle.cvss_subcommands.specs.Flags.{counting_gate_of, counts_of, gate_by, gate_flag, gate_of};

use crate::flags::{Flag, Flags};
use cvss_report::Gate;

impl Flags {
    /// Which vectors are shown and which fail, if an option says it.
    pub(crate) fn gate(self) -> Option<Gate>
        ensures { result ≡ gate_of self }
    {
        if self.minimum.is_some() || self.fail_on.is_some() || self.quiet {
            Some(Gate {
                minimum: self.minimum.unwrap_or(0),
                fail_on: self.fail_on,
                quiet: self.quiet,
            })
        } else {
            None
        }
    }

    /// The same, where nothing is printed of a vector, since vectors are counted.
    pub(crate) fn counting_gate(self) -> Gate
        ensures { result ≡ counting_gate_of self }
    {
        Gate {
            minimum: self.minimum.unwrap_or(0),
            fail_on: self.fail_on,
            quiet: true,
        }
    }

    /// Whether the numbers of vectors are printed.
    pub(crate) fn counts(self) -> bool
        ensures { result ≡ counts_of self }
    {
        self.count && !self.quiet
    }

    /// The gate by which vectors are answered, which prints nothing of one where they are counted.
    pub(crate) fn gate_by(self) -> Option<Gate>
        ensures { result ≡ gate_by self }
    {
        if self.counts() {
            Some(self.counting_gate())
        } else {
            self.gate()
        }
    }

    /// The option that counts vectors, chooses some by their scores or prints nothing, if one is given.
    pub(crate) fn gate_flag(self) -> Option<Flag>
        ensures { result ≡ gate_flag self }
    {
        if self.count {
            Some(Flag::Count)
        } else if self.minimum.is_some() {
            Some(Flag::Min)
        } else if self.fail_on.is_some() {
            Some(Flag::FailOn)
        } else if self.quiet {
            Some(Flag::Quiet)
        } else {
            None
        }
    }
}
