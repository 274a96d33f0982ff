//! The texts that are reported on standard error.

ghost use Rattle.std.specs.Prelude.{◌≡◌, ◌++◌, IfOk, Some, codes, option_map};
ghost use Rattle.cvss_json.specs.Sinks.{Adds};
ghost use Rattle.cvss_frame.specs.Names.{shown_name};
ghost use Rattle.cvss_triage.specs.Locations.{form_text, name_text, location_text};
ghost use Rattle.cvss_triage.specs.Reports.{bad_line_text, reason_words, unknown_line_text, unknown_text, why_text};
ghost use Rattle.cvss_triage.specs.declared.form.Form.TheVariants.{Lines};

use crate::form::Form;
use crate::reading::Reason;
use cvss_frame::put_shown;
use cvss_json::{Growing, Sink, put_whole};
use cvss_report::put_error;
use std::alloc::{AllocError, Global};

/// What is reported of a line or a record that has no row, by whether it is a record that is not closed, the
/// name of its file, if that is shown, its number there and why it has none.
///
/// # Errors
///
/// Out of memory.
pub(crate) fn bad_line_text(
    alloc: Global,
    form: Form,
    unclosed: bool,
    name: Option<&[u8]>,
    number: usize,
    reason: &Reason<'_>,
) -> Result<Vec<u8>, AllocError>
    ensures { IfOk result (λ text. text.items ≡ bad_line_text form unclosed
        (option_map (λ name. name.now) name.entry) number reason.now) }
{
    let mut text = Growing::new(alloc);
    put_bad_line(&mut text, form, unclosed, name, number, reason);
    text.end()
}

fn put_bad_line<S: Sink>(
    sink: &mut S,
    form: Form,
    unclosed: bool,
    name: Option<&[u8]>,
    number: usize,
    reason: &Reason<'_>,
)
    ensures { Adds S.Holds (bad_line_text form unclosed
        (option_map (λ name. name.now) name.entry) number reason.now)
        sink.old sink.new }
{
    sink.push(b"cvss: ");
    put_location(sink, form, name, number);
    put_why(sink, form, unclosed, reason);
    sink.push(b"\n");
}

/// What is reported of metrics that an option gives.
///
/// # Errors
///
/// Out of memory.
pub(crate) fn unknown_text(alloc: Global, metrics: &[u8]) -> Result<Vec<u8>, AllocError>
    ensures { IfOk result (λ text. text.items ≡ unknown_text metrics.now) }
{
    let mut text = Growing::new(alloc);
    put_unknown(&mut text, b"cvss: no CVSS version has ", metrics);
    text.end()
}

/// What is reported of the line of this number of a profile, which has a name.
///
/// # Errors
///
/// Out of memory.
pub(crate) fn unknown_line_text(
    alloc: Global,
    name: &[u8],
    number: usize,
    line: &[u8],
) -> Result<Vec<u8>, AllocError>
    ensures { IfOk result (λ text. text.items
        ≡ unknown_line_text (location_text Lines (Some name.now) number) line.now) }
{
    let mut text = Growing::new(alloc);
    text.push(b"cvss: ");
    put_location(&mut text, Form::Lines, Some(name), number);
    put_unknown(&mut text, NOT_METRICS, line);
    text.end()
}

/// What is said of a line of a profile that has no metrics of a version.
const NOT_METRICS: &[u8] = b"not v2 metrics, nor v3 or v4.0 metrics after their prefix: ";

/// Writes words and what is given, as it is shown.
fn put_unknown<S: Sink>(sink: &mut S, words: &[u8], given: &[u8])
    ensures { Adds S.Holds (words.now ++ (shown_name given.now ++ codes "\n")) sink.old sink.new }
{
    sink.push(words);
    put_shown(sink, given);
    sink.push(b"\n");
}

/// Writes the name of a file, if there is one, and the number of a line or a record.
#[tactic(auto, using(cvss_json::proofs::AddsLemmas::join2))]
fn put_location<S: Sink>(sink: &mut S, form: Form, name: Option<&[u8]>, number: usize)
    ensures { Adds S.Holds (location_text form (option_map (λ name. name.now) name.entry) number)
        sink.old sink.new }
{
    put_name(sink, name);
    put_form(sink, form);
    put_whole(sink, number as u64);
    sink.push(b": ");
}

#[tactic(auto, using(cvss_json::proofs::AddsLemmas::join2))]
fn put_name<S: Sink>(sink: &mut S, name: Option<&[u8]>)
    ensures { Adds S.Holds (name_text (option_map (λ name. name.now) name.entry))
        sink.old sink.new }
{
    match name {
        None => sink.push(b""),
        Some(name) => {
            put_shown(sink, name);
            sink.push(b": ");
        }
    }
}

/// Writes what has a number.
fn put_form<S: Sink>(sink: &mut S, form: Form)
    ensures { Adds S.Holds (form_text form) sink.old sink.new }
{
    match form {
        Form::Lines => sink.push(b"line "),
        Form::Records => sink.push(b"record "),
    }
}

/// Writes why a line or a record has no row.
fn put_why<S: Sink>(sink: &mut S, form: Form, unclosed: bool, reason: &Reason<'_>)
    ensures { Adds S.Holds (why_text form unclosed reason.now) sink.old sink.new }
{
    if unclosed {
        sink.push(b"a quoted field is not closed");
    } else {
        put_reason(sink, form, reason);
    }
}

fn put_reason<S: Sink>(sink: &mut S, form: Form, reason: &Reason<'_>)
    ensures { Adds S.Holds (reason_words form reason.now) sink.old sink.new }
{
    match (reason, form) {
        (Reason::NoVector, _) => sink.push(b"no vector"),
        (Reason::SeveralVectors, Form::Lines) => sink.push(b"more than one vector on this line"),
        (Reason::SeveralVectors, Form::Records) => {
            sink.push(b"more than one vector in this record");
        }
        (Reason::Rejected(error), _) => put_error(sink, *error),
    }
}
