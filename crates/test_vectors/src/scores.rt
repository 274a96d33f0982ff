//! Scores and sub-scores, in counts of 10^-24.

use crate::numbers::rounded;
use crate::shown::print_error;
use crate::{v2, v3};
use cvss_vector::Cvss;
use std::io;

/// The score of a vector as it is written, and all of its scores.
pub(crate) fn scores(rt: &HostRuntime, text: &str) -> io::Result<()> {
    match Cvss::from_str(rt.alloc(), text) {
        Ok(vector) => {
            print!(rt; "{} {}", vector.score_text(), vector.score())?;
            print_others(rt, &vector)
        }
        Err(error) => print_error(rt, &error),
    }
}

/// The scores after the one that is published.
fn print_others(rt: &HostRuntime, vector: &Cvss) -> io::Result<()> {
    match vector {
        Cvss::CvssV20(vector) => {
            let temporal = vector.temporal_score().value();
            println!(rt; " {temporal} {}", vector.environmental_score().value())
        }
        Cvss::CvssV30(vector) | Cvss::CvssV31(vector) => {
            let temporal = vector.temporal_score().value();
            let environmental = vector.environmental_score().value();
            println!(rt; " {temporal} {environmental} {}", certainty(vector))
        }
        Cvss::CvssV40(_) => println!(rt),
    }
}

fn certainty(vector: &v3::Vector) -> &'static str {
    if vector.base_is_certain() && vector.environmental_is_certain() {
        "certain"
    } else {
        "uncertain"
    }
}

/// The sub-scores of a vector of v2 or v3.
pub(crate) fn parts(rt: &HostRuntime, text: &str) -> io::Result<()> {
    match Cvss::from_str(rt.alloc(), text) {
        Ok(vector) => print_parts(rt, &vector),
        Err(error) => print_error(rt, &error),
    }
}

fn print_parts(rt: &HostRuntime, vector: &Cvss) -> io::Result<()> {
    match vector {
        Cvss::CvssV20(vector) => parts_of_v2(rt, vector),
        Cvss::CvssV30(vector) | Cvss::CvssV31(vector) => {
            let impact = vector.impact().value();
            println!(rt; "{impact} {}", vector.exploitability().value())
        }
        Cvss::CvssV40(_) => println!(rt; "v4 has none"),
    }
}

fn parts_of_v2(rt: &HostRuntime, vector: &v2::Vector) -> io::Result<()> {
    let impact = rounded(vector.impact()).value();
    let exploitability = rounded(vector.exploitability()).value();
    let adjusted = rounded(vector.adjusted_impact()).value();
    println!(rt; "{impact} {exploitability} {adjusted}")
}
