//! What the options of triage set, and the texts that say it.

ghost use Rattle.std.specs.Prelude.{◌≡◌, IfOk, map};
ghost use Rattle.cvss_frame.specs.Streams.{state};
ghost use Rattle.cvss_triage.specs.Inputs.{ReadsEach};
ghost use Rattle.cvss_triage.specs.Settings.{ReadsSetting, as_words};

use crate::inputs::read_input;
use cvss_frame::{Host, Streams};
use std::alloc::{AllocError, Global};

/// How an option says which metrics are set.
#[derive(Drop)]
pub enum SettingKind {
    /// Its word has the metrics, which are set in the vectors of all versions that have them.
    Metrics,
    /// Its word names an input that has a partial vector in each line.
    Profile,
}

/// An option that sets metrics.
#[derive(Drop)]
pub struct Setting<'a> {
    pub kind: SettingKind,
    pub word: &'a [u8],
}

/// A setting, and its text: its word, or what its profile has. There is none where the profile cannot be
/// read.
#[derive(Drop)]
pub(crate) struct SettingText<'a> {
    pub(crate) setting: &'a Setting<'a>,
    pub(crate) text: Option<Vec<u8>>,
}

/// Reads the texts of settings in turn. Nothing is written.
///
/// # Errors
///
/// Out of memory.
#[tactic(auto, using(crate::proofs::ReadsLemmas::reads_all))]
pub(crate) fn read_settings<'a, H: Host>(
    alloc: Global,
    settings: &'a [Setting<'a>],
    streams: &mut Streams<H>,
) -> Result<Vec<SettingText<'a>>, AllocError>
    ensures read { IfOk result (λ texts. ReadsEach ReadsSetting (map as_words settings.now)
        (state streams.old) (state streams.new) texts.items) }
    ensures written { (state streams.new).written ≡ (state streams.old).written }
{
    let mut texts = Vec::new(alloc);
    for setting in settings {
        texts.push(read_setting(alloc, setting, streams)?)?;
    }
    Ok(texts)
}

fn read_setting<'a, H: Host>(
    alloc: Global,
    setting: &'a Setting<'a>,
    streams: &mut Streams<H>,
) -> Result<SettingText<'a>, AllocError>
    ensures read { IfOk result (ReadsSetting (as_words setting.now)
        (state streams.old) (state streams.new)) }
    ensures written { (state streams.new).written ≡ (state streams.old).written }
{
    let text = match setting.kind {
        SettingKind::Metrics => Some(Vec::from_slice(alloc, setting.word)?),
        SettingKind::Profile => read_input(alloc, setting.word, streams)?,
    };
    Ok(SettingText { setting, text })
}
