//! The runs over lines and the triage of `cvss_tool`, by the paths of the libraries that define
//! them, since no crate can name a program.

use super::{Reported, Value};
use cvss::Error;
use cvss_lines::{RunFault, Summary, exit_status, run};
use cvss_vector::Vectors;
use cvss_vector::v4::triage::{Row, TriageError, apply};
use std::alloc::Global;
use std::fmt;
use std::io::{Read, Write};

impl Value for Summary {}

impl Value for RunFault {}

impl Reported for TriageError {}

trait Compared: fmt::Debug + PartialEq + Eq {}

impl Compared for Row {}

const _: Summary = Summary {
    accepted: 0u64,
    rejected: 0u64,
};

fn answered<R: Read, W: Write>(
    alloc: Global,
    reader: &mut R,
    writer: &mut W,
) -> Result<Summary, RunFault> {
    run(&Vectors {}, alloc, reader, writer)
}

fn status(outcome: &Result<Summary, RunFault>) -> u8 {
    exit_status(outcome)
}

fn faults(fault: RunFault) {
    let (RunFault::Read | RunFault::Write | RunFault::Memory) = fault;
}

fn ranked(alloc: Global, texts: &[&str], overrides: &[&str]) -> Result<Vec<Row>, TriageError> {
    apply(alloc, texts, overrides)
}

fn rows(row: &Row) -> (&String, &String, i128) {
    (&row.text, &row.scored, row.score)
}

fn rejections(error: &TriageError) -> Option<(usize, Option<&Error>)> {
    match error {
        TriageError::Override { index, error } | TriageError::Text { index, error } => {
            Some((*index, Some(error)))
        }
        TriageError::NotEnvironmental { index } => Some((*index, None)),
        TriageError::OutOfMemory => None,
    }
}
