//! Texts that are written into a buffer of the caller.

use crate::capi::buffers::{Form, print_report, print_written};
use crate::capi::cut;
use crate::capi::facts::canonical;
use crate::capi::lists::number;
use cvss_ffi::defined::without_not_defined;
use cvss_ffi::objects::{explain, record};
use cvss_ffi::score_line::score_line;
use cvss_ffi::setting::{from_metrics, with_metrics};
use std::io;

pub(super) fn print_without(
    rt: &HostRuntime,
    text: &[u8],
    flags: u32,
    form: Form,
) -> io::Result<()> {
    print_report(
        rt,
        form,
        |error, buffer| without_not_defined(text, flags, error, buffer),
    )
}

pub(super) fn print_record(
    rt: &HostRuntime,
    text: &[u8],
    flags: u32,
    form: Form,
) -> io::Result<()> {
    print_report(rt, form, |error, buffer| record(text, flags, error, buffer))
}

pub(super) fn print_explanation(
    rt: &HostRuntime,
    text: &[u8],
    flags: u32,
    form: Form,
) -> io::Result<()> {
    print_report(
        rt,
        form,
        |error, buffer| explain(text, flags, error, buffer),
    )
}

pub(super) fn print_score_line(rt: &HostRuntime, text: &[u8], flags: u32) -> io::Result<()> {
    print_written(rt, |buffer| score_line(text, flags, buffer))
}

/// The vector of a text with the metrics after the first blank set, or why they are not.
pub(super) fn print_with(rt: &HostRuntime, asked: &[u8], flags: u32, form: Form) -> io::Result<()> {
    let (text, metrics) = cut(asked, b' ');
    print_report(
        rt,
        form,
        |error, buffer| with_metrics(text, metrics, flags, error, buffer),
    )
}

/// The vector of a version that the metrics after the first blank make, or why they make none.
pub(super) fn print_made(rt: &HostRuntime, asked: &[u8], flags: u32, form: Form) -> io::Result<()> {
    let (version, metrics) = cut(asked, b' ');
    let version = i32::try_from(number(version)).unwrap_or(0);
    print_report(
        rt,
        form,
        |error, buffer| from_metrics(version, metrics, flags, error, buffer),
    )
}

/// All that the error of a call says: the call's mark is before the first blank.
pub(super) fn print_error(rt: &HostRuntime, asked: &[u8], flags: u32) -> io::Result<()> {
    let (mark, rest) = cut(asked, b' ');
    match mark {
        b"canonical" => canonical(rt, rest, flags, Form::Error),
        b"without" => print_without(rt, rest, flags, Form::Error),
        b"record" => print_record(rt, rest, flags, Form::Error),
        b"account" => print_explanation(rt, rest, flags, Form::Error),
        b"with" => print_with(rt, rest, flags, Form::Error),
        b"build" => print_made(rt, rest, flags, Form::Error),
        _ => print!(rt; "no such mark"),
    }
}
