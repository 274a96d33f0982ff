//! The parts of a line for people.

ghost use Rattle.std.specs.Prelude.{◌≡◌, flat_map, map, option_map};
ghost use Rattle.cvss_audit.specs.Inputs.{input_view};
ghost use Rattle.cvss_audit.specs.Lines.{file_text, id_text, is_located, location_text, name_text, number_text, reason_text, space_if, start_text};
ghost use Rattle.cvss_audit.specs.Locations.{location_view};
ghost use Rattle.cvss_json.specs.Sinks.{Adds};

use crate::documents::input::Input;
use crate::locations::location::Location;
use cvss_frame::put_shown;
use cvss_json::{Sink, put_escaped, put_whole};

/// Writes the beginning of a line about a location.
#[tactic(auto, using(cvss_json::proofs::AddsLemmas::join2))]
pub(crate) fn put_start<S: Sink>(sink: &mut S, input: Input<'_>, location: &Location<'_>)
    ensures { Adds S.Holds (start_text (input_view input.entry) (location_view location.now))
        sink.old sink.new }
{
    put_location(sink, input, location.at.as_str());
    put_id(sink, location.context.id);
}

/// Writes the file, the line, and the pointer to a value in the document.
#[tactic(auto, using(cvss_json::proofs::AddsLemmas::join2))]
pub(crate) fn put_location<S: Sink>(sink: &mut S, input: Input<'_>, at: &str)
    ensures { Adds S.Holds (location_text (input_view input.entry) at.now) sink.old sink.new }
{
    put_file(sink, input.file);
    put_number(sink, input.line);
    put_escaped(sink, at);
    put_space_if(sink, is_located(input, at));
}

#[tactic(auto, using(cvss_json::proofs::AddsLemmas::join2, cvss_json::proofs::AddsLemmas::nothing))]
fn put_file<S: Sink>(sink: &mut S, file: Option<&str>)
    ensures { Adds S.Holds (file_text (option_map (λ file. file.now) file.entry))
        sink.old sink.new }
{
    if let Some(file) = file {
        put_shown(sink, file.as_bytes());
        sink.push(b":");
    }
}

#[tactic(auto, using(cvss_json::proofs::AddsLemmas::join2, cvss_json::proofs::AddsLemmas::nothing))]
fn put_number<S: Sink>(sink: &mut S, line: Option<u64>)
    ensures { Adds S.Holds (number_text line) sink.old sink.new }
{
    if let Some(line) = line {
        put_whole(sink, line);
        sink.push(b":");
    }
}

#[tactic(auto, using(cvss_json::proofs::AddsLemmas::nothing))]
fn put_space_if<S: Sink>(sink: &mut S, is_due: bool)
    ensures { Adds S.Holds (space_if is_due) sink.old sink.new }
{
    if is_due {
        sink.push(b" ");
    }
}

/// Whether the file, the line or a pointer is said.
fn is_located(input: Input<'_>, at: &str) -> bool
    ensures { result ≡ is_located (input_view input.entry) at.now }
{
    input.file.is_some() || input.line.is_some() || !at.is_empty()
}

#[tactic(auto, using(cvss_json::proofs::AddsLemmas::join2, cvss_json::proofs::AddsLemmas::nothing))]
fn put_id<S: Sink>(sink: &mut S, id: Option<&str>)
    ensures { Adds S.Holds (id_text (option_map (λ id. id.now) id.entry)) sink.old sink.new }
{
    if let Some(id) = id {
        put_escaped(sink, id);
        sink.push(b" ");
    }
}

/// Writes why a vector or a document is rejected.
#[tactic(auto, using(cvss_json::proofs::AddsLemmas::join2))]
pub(crate) fn put_reason<S: Sink>(sink: &mut S, reason: &str)
    ensures { Adds S.Holds (reason_text reason.now) sink.old sink.new }
{
    sink.push(b"error: ");
    put_escaped(sink, reason);
}

/// Writes names, each after a space.
pub(crate) fn put_names<S: Sink>(sink: &mut S, names: &[&str])
    ensures { Adds S.Holds (flat_map name_text (map (λ name. name.now) names.now))
        sink.old sink.new }
{
    for name in names {
        put_name(sink, name);
    }
}

#[tactic(auto, using(cvss_json::proofs::AddsLemmas::join2))]
fn put_name<S: Sink>(sink: &mut S, name: &str)
    ensures { Adds S.Holds (name_text name.now) sink.old sink.new }
{
    sink.push(b" ");
    sink.push(name.as_bytes());
}
