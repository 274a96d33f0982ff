//! Vectors: their texts, scores, ratings and metrics.

use crate::shown::print_error;
use crate::{v2, v3, v4};
use cvss_base::Severity;
use cvss_vector::{Bounds, Cvss, MetricType, Scoring};
use std::{fmt, io};

const OTHERWISE: &str = "read_bytes says otherwise";

/// A vector of any version.
pub(crate) fn of_any(rt: &HostRuntime, line: &[u8]) -> io::Result<()> {
    let read = Cvss::read_bytes(line);
    match Cvss::from_bytes(rt.alloc(), line) {
        Ok(vector) => print_vector(rt, &read, &vector, &vector.score_text(), vector.severity()),
        Err(error) => print_rejection(rt, read.is_none(), &error),
    }
}

/// A vector by the rules of v2.
pub(crate) fn of_v2(rt: &HostRuntime, text: &str) -> io::Result<()> {
    let read = v2::Vector::read_bytes(text.as_bytes());
    match v2::Vector::from_str(rt.alloc(), text) {
        Ok(vector) => {
            let score = vector.score();
            print_vector(rt, &read, &vector, &score, score.severity())
        }
        Err(error) => print_rejection(rt, read.is_none(), &error),
    }
}

/// A vector by the rules of v3.
pub(crate) fn of_v3(rt: &HostRuntime, text: &str) -> io::Result<()> {
    let read = v3::Vector::read_bytes(text.as_bytes());
    match v3::Vector::from_str(rt.alloc(), text) {
        Ok(vector) => print_vector(rt, &read, &vector, &vector.score(), vector.severity()),
        Err(error) => print_rejection(rt, read.is_none(), &error),
    }
}

/// A vector by the rules of v4, whose score says the nomenclature.
pub(crate) fn of_v4(rt: &HostRuntime, text: &str) -> io::Result<()> {
    let read = v4::Vector::read_bytes(text.as_bytes());
    match v4::Vector::from_str(rt.alloc(), text) {
        Ok(vector) => {
            let score = vector.score();
            print_vector(rt, &read, &vector, &score, score.severity())
        }
        Err(error) => print_rejection(rt, read.is_none(), &error),
    }
}

/// A vector with its score and rating, if `read_bytes` reads the same.
fn print_vector<V, S>(
    rt: &HostRuntime,
    read: &Option<V>,
    vector: &V,
    score: &S,
    rating: Severity,
) -> io::Result<()>
where
    V: fmt::Display + PartialEq,
    S: fmt::Display,
{
    if read.as_ref() == Some(vector) {
        println!(rt; "{vector} {score} {rating}")
    } else {
        println!(rt; "{OTHERWISE}")
    }
}

/// Why a text is rejected, if `read_bytes` rejects it too.
fn print_rejection<E: fmt::Display>(
    rt: &HostRuntime,
    is_rejected: bool,
    error: &E,
) -> io::Result<()> {
    if is_rejected {
        print_error(rt, error)
    } else {
        println!(rt; "{OTHERWISE}")
    }
}

/// The metrics with their versions, in the order in which they are listed.
pub(crate) fn metrics(rt: &HostRuntime, text: &str) -> io::Result<()> {
    if let Some(vector) = Cvss::read_bytes(text.as_bytes()) {
        for (kind, spelling) in vector.metrics() {
            print_metric(rt, kind, spelling)?;
        }
    }
    println!(rt)
}

fn print_metric(rt: &HostRuntime, kind: MetricType, spelling: &str) -> io::Result<()> {
    print!(rt; "{} {}:{spelling};", version_of(kind), kind.name())
}

fn version_of(kind: MetricType) -> &'static str {
    match kind {
        MetricType::V2(_) => "v2",
        MetricType::V3(_) => "v3",
        MetricType::V4(_) => "v4",
    }
}

/// What is published of a canonical text that is seen to be one: the text, the tenths of the score, and
/// how it is rated.
pub(crate) fn seen(rt: &HostRuntime, text: &str) -> io::Result<()> {
    match Cvss::published_of_canonical(text.as_bytes(), Scoring::Published) {
        Some(published) => {
            println!(rt;
                "{text} {} {}",
                published.tenths,
                bounds_text(published.bounds)
            )
        }
        None => println!(rt; "not at sight"),
    }
}

fn bounds_text(bounds: Bounds) -> &'static str {
    match bounds {
        Bounds::OfV2 => "v2",
        Bounds::SinceV3 => "v3",
    }
}

/// Whether two vectors are equal, and whether their texts are.
pub(crate) fn same(rt: &HostRuntime, texts: &str) -> io::Result<()> {
    match texts
        .split_once(' ')
        .and_then(|(one, other)| both(one, other))
    {
        Some((equal, same_text)) => println!(rt; "{} {}", word(equal), word(same_text)),
        None => println!(rt; "no two vectors of a version"),
    }
}

fn word(yes: bool) -> &'static str {
    if yes { "same" } else { "other" }
}

fn both(one: &str, other: &str) -> Option<(bool, bool)> {
    match (
        &Cvss::read_bytes(one.as_bytes())?,
        &Cvss::read_bytes(other.as_bytes())?,
    ) {
        (Cvss::CvssV20(one), Cvss::CvssV20(other)) => Some((one == other, one.same_text(other))),
        (Cvss::CvssV30(one) | Cvss::CvssV31(one), Cvss::CvssV30(other) | Cvss::CvssV31(other)) =>
            Some((one == other, one.same_text(other))),
        (Cvss::CvssV40(one), Cvss::CvssV40(other)) => Some((one == other, one.same_text(other))),
        _ => None,
    }
}
