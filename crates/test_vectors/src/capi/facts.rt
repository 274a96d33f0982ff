//! What C gets of a text: its canonical text, numbers, scores and metrics, or why it is rejected.

use crate::capi::buffers::{Form, LEFT, print_report, text_of, unset_error};
use crate::capi::cut;
use crate::capi::lists::number;
use cvss_base::v4::MOST_METRICS;
use cvss_ffi::metrics::metrics;
use cvss_ffi::numbers::{NOTHING, severity};
use cvss_ffi::score::score;
use cvss_ffi::values::values;
use cvss_ffi::vector::parse;
use cvss_ffi::{CvssMetric, CvssValues, CvssVector};
use std::io;

const SEVERITIES: [&str; 5] = ["none", "low", "medium", "high", "critical"];

const NOMENCLATURES: [&str; 4] = ["CVSS-B", "CVSS-BE", "CVSS-BT", "CVSS-BTE"];

pub(super) fn facts(rt: &HostRuntime, text: &[u8], flags: u32) -> io::Result<()> {
    canonical(rt, text, flags, Form::Kind)?;
    let mut vector = unset_vector(65);
    parse(text, flags, &mut vector, &mut unset_error(0), &mut []);
    if vector.version == 99 {
        return check_rejected(rt, text, flags, &vector);
    }
    print_numbers(rt, &vector)?;
    check_values(rt, text, flags, &vector)?;
    print_metrics(rt, text, flags)
}

/// Prints the canonical text, by calls that leave what is reported of the vector as it was.
pub(super) fn canonical(rt: &HostRuntime, text: &[u8], flags: u32, form: Form) -> io::Result<()> {
    print_report(rt, form, |error, buffer| {
        let mut vector = unset_vector(63);
        let length = parse(text, flags, &mut vector, error, buffer);
        if is_unset(&vector, 63) { length } else { 0 }
    })
}

/// What is reported of a vector before anything is.
fn unset_vector(size: u32) -> CvssVector {
    CvssVector {
        size,
        version: 99,
        score: 99,
        severity: 99,
        base: 99,
        base_severity: 99,
        temporal: 99,
        temporal_severity: 99,
        environmental: 99,
        environmental_severity: 99,
        nomenclature: 99,
        by_nomenclature: [99; 4],
        is_complete: 99,
    }
}

fn is_unset(vector: &CvssVector, size: u32) -> bool {
    let scores = [
        vector.score,
        vector.base,
        vector.temporal,
        vector.environmental,
    ];
    let severities = [
        vector.severity,
        vector.base_severity,
        vector.temporal_severity,
        vector.environmental_severity,
    ];
    scores == [99; 4]
        && severities == [99; 4]
        && vector.by_nomenclature == [99; 4]
        && [vector.version, vector.nomenclature, vector.is_complete] == [99; 3]
        && vector.size == size
}

/// What other calls tell of a text that is rejected is nothing.
fn check_rejected(
    rt: &HostRuntime,
    text: &[u8],
    flags: u32,
    vector: &CvssVector,
) -> io::Result<()> {
    if !is_unset(vector, 65) || score(text, flags) != NOTHING {
        print!(rt; " but it has scores")?;
    }
    if metrics(text, flags, &mut []) != 0 || values(text, flags, &mut unset_values(273)) {
        print!(rt; " but it has metrics")?;
    }
    Ok(())
}

fn print_numbers(rt: &HostRuntime, vector: &CvssVector) -> io::Result<()> {
    let version = vector.version;
    if vector.size != 65 {
        print!(rt; " another size")?;
    }
    if version < 0 {
        return print!(rt; " no version");
    }
    print!(rt;
        " {}.{} {} {}",
        version / 10,
        version % 10,
        word(&NOMENCLATURES, vector.nomenclature),
        word(&["incomplete", "complete"], vector.is_complete)
    )?;
    print_score(rt, vector.score, vector.severity)?;
    print_score(rt, vector.base, vector.base_severity)?;
    print_score(rt, vector.temporal, vector.temporal_severity)?;
    print_score(rt, vector.environmental, vector.environmental_severity)?;
    for tenths in vector.by_nomenclature {
        print_tenths(rt, tenths)?;
    }
    Ok(())
}

fn print_score(rt: &HostRuntime, tenths: i32, severity: i32) -> io::Result<()> {
    print_tenths(rt, tenths)?;
    print!(rt; " {}", word(&SEVERITIES, severity))
}

fn print_tenths(rt: &HostRuntime, tenths: i32) -> io::Result<()> {
    if tenths == NOTHING {
        print!(rt; " -")
    } else {
        print!(rt; " {}.{}", tenths / 10, tenths % 10)
    }
}

/// The values of a vector before anything is written.
fn unset_values(size: u32) -> CvssValues {
    CvssValues {
        size,
        version: 99,
        score: 99,
        nomenclature: 99,
        fields: [[LEFT; 8]; MOST_METRICS],
    }
}

/// What the calls that tell less tell the same.
fn check_values(rt: &HostRuntime, text: &[u8], flags: u32, vector: &CvssVector) -> io::Result<()> {
    let mut found = unset_values(273);
    let is_reported = values(text, flags, &mut found);
    let mut small = unset_values(271);
    if values(text, flags, &mut small) || small.version != 99 || small.fields[0] != [LEFT; 8] {
        print!(rt; " values that are too short were not left as they were")?;
    }
    let reported = [found.version, found.score, found.nomenclature];
    if !is_reported
        || reported != [vector.version, vector.score, vector.nomenclature]
        || found.size != 273
    {
        print!(rt; " other values")?;
    }
    let count = found.fields.iter().filter(|field| field[0] != 0).count();
    if count != metrics(text, flags, &mut []) {
        print!(rt; " {count} values")?;
    }
    if score(text, flags) != vector.score {
        print!(rt; " another score")?;
    }
    Ok(())
}

/// Prints the scores by nomenclature of a vector of v4.0, or `-`.
pub(super) fn print_scores_by(rt: &HostRuntime, text: &[u8], flags: u32) -> io::Result<()> {
    let mut vector = unset_vector(64);
    parse(text, flags, &mut vector, &mut unset_error(0), &mut []);
    match vector.by_nomenclature {
        [99, 99, 99, 99] | [NOTHING, NOTHING, NOTHING, NOTHING] => print!(rt; "-"),
        [b, be, bt, bte] => print!(rt; "{b} {be} {bt} {bte}"),
    }
}

/// Prints the severity of the tenths after the first blank by the bounds of the version before it.
pub(super) fn print_severity(rt: &HostRuntime, asked: &[u8]) -> io::Result<()> {
    let (version, tenths) = cut(asked, b' ');
    let version = i32::try_from(number(version)).unwrap_or(0);
    let tenths = match tenths {
        [b'-', digits @ ..] => -i32::try_from(number(digits)).unwrap_or(0),
        digits => i32::try_from(number(digits)).unwrap_or(i32::MAX),
    };
    print!(rt; "{}", word(&SEVERITIES, severity(version, tenths)))
}

/// The word of a number, or `-`.
fn word(words: &[&'static str], number: i32) -> &'static str {
    match usize::try_from(number) {
        Ok(index) if index < words.len() => words[index],
        _ => "-",
    }
}

/// Prints the metrics that are written into an array that just fits.
fn print_metrics(rt: &HostRuntime, text: &[u8], flags: u32) -> io::Result<()> {
    let mut own = [CvssMetric {
        name: [LEFT; 8],
        value: [LEFT; 8],
    }; MOST_METRICS];
    let count = metrics(text, flags, &mut []);
    if count == 0 || count > MOST_METRICS {
        return print!(rt; " {count} metrics");
    }
    if metrics(text, flags, &mut own[..count - 1]) != count || !own.iter().all(is_left) {
        return print!(rt; " an array that is too short was not left as it was");
    }
    metrics(text, flags, &mut own[..count]);
    for metric in &own[..count] {
        print!(rt; " {}={}", text_of(&metric.name), text_of(&metric.value))?;
    }
    Ok(())
}

fn is_left(metric: &CvssMetric) -> bool {
    metric.name == [LEFT; 8] && metric.value == [LEFT; 8]
}
