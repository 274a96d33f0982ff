//! What is reported on standard error.

ghost use Rattle.std.specs.Prelude.{◌≡◌, ◌++◌, IfOk, false, flat_map};
ghost use Rattle.cvss_json.specs.Sinks.{Adds};
ghost use Rattle.cvss_frame.specs.Names.{shown_byte, shown_bytes, shown_name};
ghost use Rattle.cvss_frame.specs.Reports.{Reports, ReportsAbout, ReportsError, reported};

use crate::names::{byte_escape, is_printable, put_shown};
use cvss_json::{Growing, Sink};
use cvss_lines::write_whole;
use std::alloc::{AllocError, Global};
use std::fmt::{Display, InlineText};
use std::io::Write;

/// How many bytes of the words for an error are reported. Those of the system have fewer.
const WORDS: usize = 320;

/// A writer of reports. It takes nothing more once a write has failed, so that it has a beginning of
/// them.
#[derive(Drop)]
pub struct Report<E> {
    pub alloc: Global,
    pub writer: E,
    pub has_failed: bool,
}

impl<E> Report<E> {
    /// A writer whose writes have not failed.
    pub fn new(alloc: Global, writer: E) -> Report<E>
        ensures writer { result.writer ≡ writer }
        ensures failed { result.has_failed ≡ false }
    {
        Report {
            alloc,
            writer,
            has_failed: false,
        }
    }
}

impl<E: Write> Report<E> {
    /// Reports a text. What cannot be written is lost.
    pub fn write(&mut self, text: &[u8])
        ensures { Reports (reported E.contents self.old) (reported E.contents self.new) text.now }
    {
        if !self.has_failed {
            self.has_failed = write_whole(&mut self.writer, text).is_err();
        }
    }

    /// Reports a name by its bytes.
    fn write_shown(&mut self, name: &[u8])
        ensures { Reports (reported E.contents self.old) (reported E.contents self.new)
            (shown_bytes name.now) }
    {
        let mut left = name;
        while let Some((byte, rest)) = left.split_first() {
            self.write_byte(*byte);
            left = rest;
        }
    }

    fn write_byte(&mut self, byte: u8)
        ensures { Reports (reported E.contents self.old) (reported E.contents self.new)
            (shown_byte byte) }
    {
        if is_printable(byte) {
            self.write(&[byte]);
        } else {
            self.write(&byte_escape(byte));
        }
    }

    /// Reports parts of a text in turn.
    fn write_each(&mut self, parts: &[&[u8]])
        ensures { Reports (reported E.contents self.old) (reported E.contents self.new)
            (flat_map (λ part. part.now) parts.now) }
    {
        if let [part, rest @ ..] = parts {
            self.write(part);
            self.write_each(rest);
        }
    }
}

/// Reports a text with a name in it, which is shown with escapes where it would break a line or a terminal. It
/// is one write, so that the reports of programs that share standard error do not mix, unless memory runs out.
pub fn report_about<E: Write>(before: &[u8], name: &[u8], after: &[&[u8]], report: &mut Report<E>)
    ensures { ReportsAbout before.now name.now (flat_map (λ part. part.now) after.now)
        (reported E.contents report.old) (reported E.contents report.new) }
{
    match text_about(report.alloc, before, name, after) {
        Ok(text) => report.write(&text),
        Err(_) => write_about(before, name, after, report),
    }
}

/// The text with the name in it.
///
/// # Errors
///
/// Out of memory.
fn text_about(
    alloc: Global,
    before: &[u8],
    name: &[u8],
    after: &[&[u8]],
) -> Result<Vec<u8>, AllocError>
    ensures { IfOk result (λ text. text.items
        ≡ before.now ++ (shown_name name.now ++ flat_map (λ part. part.now) after.now)) }
{
    let mut text = Growing::new(alloc);
    put_about(&mut text, before, name, after);
    text.end()
}

fn put_about<S: Sink>(sink: &mut S, before: &[u8], name: &[u8], after: &[&[u8]])
    ensures { Adds S.Holds (before.now ++ (shown_name name.now ++ flat_map (λ part. part.now) after.now))
        sink.old sink.new }
{
    sink.push(before);
    put_shown(sink, name);
    put_parts(sink, after);
}

#[tactic(auto, using(cvss_json::proofs::AddsLemmas::join2, cvss_json::proofs::AddsLemmas::nothing))]
fn put_parts<S: Sink>(sink: &mut S, parts: &[&[u8]])
    ensures { Adds S.Holds (flat_map (λ part. part.now) parts.now) sink.old sink.new }
{
    if let [part, rest @ ..] = parts {
        sink.push(part);
        put_parts(sink, rest);
    }
}

/// Reports the text in parts, which takes no memory. The name is shown by its bytes.
fn write_about<E: Write>(before: &[u8], name: &[u8], after: &[&[u8]], report: &mut Report<E>)
    ensures { Reports (reported E.contents report.old) (reported E.contents report.new)
        (before.now ++ (shown_bytes name.now ++ flat_map (λ part. part.now) after.now)) }
{
    report.write(before);
    report.write_shown(name);
    report.write_each(after);
}

/// Reports an error, and what it is about.
pub fn report_error<D: Display + Drop, E: Write>(name: &[u8], error: D, report: &mut Report<E>)
    ensures { ReportsError (D.output error) name.now
        (reported E.contents report.old) (reported E.contents report.new) }
{
    let words = InlineText::<WORDS>::of(error);
    report_about(
        b"cvss: ",
        name,
        &[b": ", words.as_str().as_bytes(), b"\n"],
        report,
    );
}
