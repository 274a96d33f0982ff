//! The options of subcommands.

ghost use Rattle.std.specs.Prelude.{◌≡◌};
ghost use Rattle.cvss_subcommands.specs.Flags.{all_scores_of, flag_name, has_value, no_flags, scoring_of, value_due, version_of, with_flag, with_value};

use crate::preference::preference_of;
use crate::requests::is;
use cvss_report::{Gate, threshold_of};
use cvss_triage::Preference;
use cvss_vector::{Scoring, Version};

/// An option of some subcommands.
#[derive(Clone, Copy, Drop)]
pub(crate) enum Flag {
    Json,
    Tsv,
    Base,
    AllowIncomplete,
    /// The version of vectors without their prefix is the next word.
    Assume,
    Annotate,
    All,
    WhatIf,
    KeepGoing,
    /// The first line of each input is its header.
    Header,
    Document,
    /// Of what --json prints.
    Differing,
    /// The score from which on vectors are shown is the next word.
    Min,
    /// The score from which on the command fails is the next word.
    FailOn,
    Quiet,
    Count,
    Standard,
    Csv,
    /// The name or the number of a column is the next word.
    Column,
    Guard,
    /// A metric and its value, as `E:A`, is the next word.
    Set,
    /// The name of a file is the next word.
    Profile,
    /// Which vector of a line is ranked is the next word.
    Prefer,
}

/// Which options are given, except those whose values are read where they are used.
#[derive(Clone, Copy, Drop)]
pub(crate) struct Flags {
    pub(crate) json: bool,
    pub(crate) tsv: bool,
    pub(crate) base: bool,
    pub(crate) allow_incomplete: bool,
    /// The version of vectors without their prefix, by the last option that says it.
    pub(crate) assumed: Option<Version>,
    pub(crate) annotate: bool,
    pub(crate) all: bool,
    pub(crate) what_if: bool,
    pub(crate) keep_going: bool,
    pub(crate) header: bool,
    pub(crate) document: bool,
    pub(crate) differing: bool,
    /// In tenths: the score from which on vectors are shown.
    pub(crate) minimum: Option<u8>,
    /// In tenths: the score from which on the command fails.
    pub(crate) fail_on: Option<u8>,
    pub(crate) quiet: bool,
    pub(crate) count: bool,
    pub(crate) standard: bool,
    pub(crate) csv: bool,
    /// Whether the option for it is given.
    pub(crate) column: bool,
    pub(crate) guard: bool,
    /// Which vector of a line is ranked that has several.
    pub(crate) prefer: Option<Preference>,
}

impl Flag {
    pub(crate) fn name(self) -> &'static str
        ensures { result.now ≡ flag_name self }
    {
        match self {
            Flag::Json => "--json",
            Flag::Tsv => "--tsv",
            Flag::Base => "--base",
            Flag::AllowIncomplete => "--allow-incomplete",
            Flag::Assume => "--assume",
            Flag::Annotate => "--annotate",
            Flag::All => "--all",
            Flag::WhatIf => "--what-if",
            Flag::KeepGoing => "--keep-going",
            Flag::Header => "--header",
            Flag::Document => "--document",
            Flag::Differing => "--differing",
            Flag::Min => "--min",
            Flag::FailOn => "--fail-on",
            Flag::Quiet => "--quiet",
            Flag::Count => "--count",
            Flag::Standard => "--standard",
            Flag::Csv => "--csv",
            Flag::Column => "--column",
            Flag::Guard => "--guard",
            Flag::Set => "--set",
            Flag::Profile => "--profile",
            Flag::Prefer => "--prefer",
        }
    }

    /// Whether the next word is its value.
    pub(crate) fn has_value(self) -> bool
        ensures { result ≡ has_value self }
    {
        matches!(
            self,
            Flag::Assume
                | Flag::Min
                | Flag::FailOn
                | Flag::Column
                | Flag::Set
                | Flag::Profile
                | Flag::Prefer
        )
    }

    /// The option, if its value is the next word.
    pub(crate) fn value_due(self) -> Option<Flag>
        ensures { result ≡ value_due self }
    {
        self.has_value().then_some(self)
    }
}

impl Flags {
    pub(crate) fn none() -> Flags
        ensures { result ≡ no_flags }
    {
        Flags {
            json: false,
            tsv: false,
            base: false,
            allow_incomplete: false,
            assumed: None,
            annotate: false,
            all: false,
            what_if: false,
            keep_going: false,
            header: false,
            document: false,
            differing: false,
            minimum: None,
            fail_on: None,
            quiet: false,
            count: false,
            standard: false,
            csv: false,
            column: false,
            guard: false,
            prefer: None,
        }
    }

    #[rattlefmt::skip]
    pub(crate) fn with(self, flag: Flag) -> Flags
        ensures { result ≡ with_flag flag self }
    {
        match flag {
            Flag::Json => Flags { json: true, ..self },
            Flag::Tsv => Flags { tsv: true, ..self },
            Flag::Base => Flags { base: true, ..self },
            Flag::AllowIncomplete => Flags { allow_incomplete: true, ..self },
            Flag::Annotate => Flags { annotate: true, ..self },
            Flag::All => Flags { all: true, ..self },
            Flag::WhatIf => Flags { what_if: true, ..self },
            Flag::KeepGoing => Flags { keep_going: true, ..self },
            Flag::Header => Flags { header: true, ..self },
            Flag::Document => Flags { document: true, ..self },
            Flag::Differing => Flags { differing: true, ..self },
            Flag::Quiet => Flags { quiet: true, ..self },
            Flag::Count => Flags { count: true, ..self },
            Flag::Standard => Flags { standard: true, ..self },
            Flag::Csv => Flags { csv: true, ..self },
            Flag::Column => Flags { column: true, ..self },
            Flag::Guard => Flags { guard: true, ..self },
            Flag::Assume | Flag::Min | Flag::FailOn | Flag::Prefer => self,
            Flag::Set | Flag::Profile => self,
        }
    }

    /// The options after the value of one of them, if it can be its value.
    #[rattlefmt::skip]
    pub(crate) fn with_value(self, flag: Flag, value: &[u8]) -> Option<Flags>
        ensures { result ≡ with_value flag value.now self }
    {
        match flag {
            Flag::Assume => match version_of(value) {
                Some(version) => Some(Flags { assumed: Some(version), ..self }),
                None => None,
            },
            Flag::Min => match threshold_of(value) {
                Some(tenths) => Some(Flags { minimum: Some(tenths), ..self }),
                None => None,
            },
            Flag::FailOn => match threshold_of(value) {
                Some(tenths) => Some(Flags { fail_on: Some(tenths), ..self }),
                None => None,
            },
            Flag::Prefer => match preference_of(value) {
                Some(preference) => Some(Flags { prefer: Some(preference), ..self }),
                None => None,
            },
            _ => Some(self),
        }
    }

    /// Which score of a vector is printed.
    pub(crate) fn scoring(self) -> Scoring
        ensures { result ≡ scoring_of self.base }
    {
        if self.base {
            Scoring::Base
        } else {
            Scoring::Overall
        }
    }

    /// The option whose output has all scores, if it is given with `--base`, which chooses one.
    pub(crate) fn all_scores(self) -> Option<Flag>
        ensures { result ≡ all_scores_of self }
    {
        if self.base && self.json {
            Some(Flag::Json)
        } else if self.base && self.tsv {
            Some(Flag::Tsv)
        } else {
            None
        }
    }
}

/// The version that vectors without their prefix can have.
fn version_of(value: &[u8]) -> Option<Version>
    ensures { result ≡ version_of value.now }
{
    if is(value, "3.0") {
        Some(Version::V30)
    } else if is(value, "3.1") {
        Some(Version::V31)
    } else {
        None
    }
}
