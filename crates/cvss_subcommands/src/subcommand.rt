//! The subcommands. A new one has its lines here, its help in `help`, and a task in `command`, and the
//! same in `specs/`: its name and options in `Subcommands`, what it does in `Done`.

ghost use Rattle.std.specs.Prelude.{◌≡◌};
ghost use Rattle.cvss_subcommands.specs.Subcommands.{flags_of, name_of, sets_metrics};

use crate::flags::Flag;

#[derive(Clone, Copy, Drop)]
pub(crate) enum Subcommand {
    Score,
    Find,
    Explain,
    Set,
    Triage,
    Audit,
    Diff,
}

impl Subcommand {
    pub(crate) const ALL: [Subcommand; 7] = [
        Subcommand::Score,
        Subcommand::Find,
        Subcommand::Explain,
        Subcommand::Set,
        Subcommand::Triage,
        Subcommand::Audit,
        Subcommand::Diff,
    ];

    pub(crate) fn name(self) -> &'static str
        ensures { result.now ≡ name_of self }
    {
        match self {
            Subcommand::Score => "score",
            Subcommand::Find => "find",
            Subcommand::Explain => "explain",
            Subcommand::Set => "set",
            Subcommand::Triage => "triage",
            Subcommand::Audit => "audit",
            Subcommand::Diff => "diff",
        }
    }

    /// The options that it has.
    #[tactic(auto, unfolding(crate::specs::Subcommands::flags_of))]
    pub(crate) fn flags(self) -> &'static [Flag]
        ensures { result.now ≡ flags_of self }
    {
        match self {
            Subcommand::Score => {
                &[
                    Flag::Json,
                    Flag::Tsv,
                    Flag::Csv,
                    Flag::Column,
                    Flag::Guard,
                    Flag::Base,
                    Flag::Standard,
                    Flag::Min,
                    Flag::FailOn,
                    Flag::Count,
                    Flag::Quiet,
                    Flag::AllowIncomplete,
                ]
            }
            Subcommand::Find => {
                &[
                    Flag::Json,
                    Flag::Csv,
                    Flag::Column,
                    Flag::Guard,
                    Flag::Annotate,
                    Flag::All,
                    Flag::Base,
                    Flag::Min,
                    Flag::FailOn,
                    Flag::Count,
                    Flag::Quiet,
                    Flag::AllowIncomplete,
                    Flag::Assume,
                ]
            }
            Subcommand::Explain => &[Flag::Json, Flag::WhatIf, Flag::AllowIncomplete],
            Subcommand::Set => &[Flag::Base, Flag::AllowIncomplete],
            Subcommand::Triage => {
                &[
                    Flag::Set,
                    Flag::Profile,
                    Flag::KeepGoing,
                    Flag::Header,
                    Flag::Prefer,
                    Flag::Json,
                    Flag::Csv,
                    Flag::Column,
                    Flag::Guard,
                    Flag::Base,
                    Flag::Min,
                    Flag::FailOn,
                    Flag::Count,
                    Flag::Quiet,
                    Flag::AllowIncomplete,
                ]
            }
            Subcommand::Audit => {
                &[
                    Flag::Json,
                    Flag::Differing,
                    Flag::Min,
                    Flag::FailOn,
                    Flag::Count,
                    Flag::Quiet,
                    Flag::AllowIncomplete,
                    Flag::Document,
                ]
            }
            Subcommand::Diff => &[Flag::Base, Flag::AllowIncomplete],
        }
    }

    /// Whether words without a slash are metrics.
    pub(crate) fn sets_metrics(self) -> bool
        ensures { result ≡ sets_metrics self }
    {
        matches!(self, Subcommand::Set)
    }
}
