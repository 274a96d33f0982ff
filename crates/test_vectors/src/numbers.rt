//! Scores by themselves: how they are printed, rated and rounded.

use crate::shown::print_alike;
use crate::{v2, v3, v4};
use cvss_base::{LIMIT, OneDecimal, Severity, tenths};
use cvss_score::v4::Nomenclature;
use std::{fmt, io};

const NO_NUMBER: &str = "no such number";

/// What is asked for a number: the word before it, and the number.
fn numbered(asked: &str) -> Option<(&str, i128)> {
    let (word, number) = asked.split_once(' ')?;
    Some((word, number.parse::<i128>().ok()?))
}

/// A score as it is printed, and its rating.
pub(crate) fn score(rt: &HostRuntime, asked: &str) -> io::Result<()> {
    match numbered(asked) {
        Some((word, count)) => score_by(rt, word, count),
        None => println!(rt; "{NO_NUMBER}"),
    }
}

fn score_by(rt: &HostRuntime, word: &str, count: i128) -> io::Result<()> {
    match word {
        "2" => {
            let score = v2::Score::from(count);
            print_rated(rt, &score, score.severity())
        }
        "3" => {
            let score = v3::Score::from(count);
            print_rated(rt, &score, score.severity())
        }
        "4" => {
            let score = v4::Score::new(count, Nomenclature::CvssB);
            print_rated(rt, &score, score.severity())
        }
        "any" => {
            print_alike(rt, &OneDecimal { count })?;
            println!(rt)
        }
        _ => println!(rt; "{NO_NUMBER}"),
    }
}

fn print_rated<S: fmt::Display>(rt: &HostRuntime, score: &S, rating: Severity) -> io::Result<()> {
    print_alike(rt, score)?;
    println!(rt; " {rating}")
}

/// The score to which a score is rounded.
pub(crate) fn round(rt: &HostRuntime, asked: &str) -> io::Result<()> {
    match numbered(asked).and_then(|(version, count)| rounded_by(version, count)) {
        Some(count) => println!(rt; "{count}"),
        None => println!(rt; "{NO_NUMBER}"),
    }
}

fn rounded_by(version: &str, count: i128) -> Option<i128> {
    if count < -LIMIT || count > LIMIT {
        return None;
    }
    match version {
        "2" => Some(v2::Score::new(count).roundup().value()),
        "3" => Some(v3::Score::new(count).roundup().value()),
        _ => {
            let minor = version.strip_prefix("3.")?.parse::<usize>().ok()?;
            Some(v3::Score::new(count).roundup_for_version(minor).value())
        }
    }
}

/// A score of v2, rounded; one beyond the limit stays as it is.
pub(crate) fn rounded(score: v2::Score) -> v2::Score {
    let count = score.value();
    if -LIMIT <= count && count <= LIMIT {
        score.roundup()
    } else {
        score
    }
}

/// The temporal score of v2 of an impact, for a vector without metrics.
pub(crate) fn temporal(rt: &HostRuntime, count: &str) -> io::Result<()> {
    match count.parse::<i128>() {
        Ok(count) if -LIMIT <= count && count <= LIMIT => {
            let score = v2::Vector::default().temporal_score_internal(v2::Score::new(count));
            println!(rt; "{}", score.value())
        }
        _ => println!(rt; "{NO_NUMBER}"),
    }
}

/// The text of a number of tenths.
pub(crate) fn tenths(rt: &HostRuntime, number: &str) -> io::Result<()> {
    match number.parse::<u8>() {
        Ok(number) if number <= 100 => println!(rt; "{}", tenths::text_of(number)),
        _ => println!(rt; "{NO_NUMBER}"),
    }
}
