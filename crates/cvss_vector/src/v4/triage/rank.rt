//! The rows of texts under overrides, in order.

ghost use Rattle.std.specs.Prelude.{◌≡◌, ◌⊎◌, ℕ, IfOk, IfErr, OnOk, IsErrAnd, length, map};
ghost use Rattle.cvss_base.specs.declared.v4.MetricType.{MetricType};
ghost use Rattle.cvss_base.specs.Rejection.{Rejection};
ghost use Rattle.cvss_vector.specs.v4.Triage.{AreRanked, AreRows};
ghost use Rattle.cvss_vector.specs.v4.TriageFaults.{Fault, InText, IsFirstFault, IsFirstRejected, HasNoRejectionBefore, ReportsFault, ReportsFirstFault, ReportsFirstRejected};
ghost use Rattle.cvss_vector.specs.declared.v4.triage.error.TriageError.TheVariants.{OutOfMemory};

use crate::v4::Vector;
use crate::v4::triage::error::TriageError;
use crate::v4::triage::row::Row;
use cvss_score::ranking::rank;
use std::alloc::Global;

/// The rows of vectors' texts, with an organisation's environmental metrics put in, in falling
/// order of score; rows of one score are in the order of their texts' bytes.
///
/// The overrides are components of environmental metrics, in any ASCII case, each metric once.
///
/// # Errors
///
/// The first override that is rejected, by place, or else the first text that is; `OutOfMemory`
/// where a growth was refused.
pub fn apply(alloc: Global, texts: &[&str], overrides: &[&str]) -> Result<Vec<Row>, TriageError>
    // Accepted: one row for each text, in order.
    ensures ranked { IfOk result (λ rows. AreRanked (map (λ text. text.now) texts.now)
        (map (λ text. text.now) overrides.now) rows.items) }
    // Rejected: for the first fault, and wherever there is one. Memory is the answer to a fault of
    // an override only where the reason carries text.
    ensures rejected { IfErr result (λ reported. (reported ≡ OutOfMemory)
        ⊎ ReportsFirstFault (map (λ text. text.now) texts.now)
        (map (λ text. text.now) overrides.now) reported) }
    ensures rejects { (fault : Fault)
        → IsFirstFault (map (λ text. text.now) texts.now)
        (map (λ text. text.now) overrides.now) fault
        → IsErrAnd result (ReportsFault fault) }
{
    let overrides = Vector::from_overrides(alloc, overrides)?;
    let mut rows = rows_of(alloc, texts, &overrides)?;
    rank(&mut rows);
    Ok(rows)
}

/// The rows of texts, in their order.
fn rows_of(alloc: Global, texts: &[&str], overrides: &Vector) -> Result<Vec<Row>, TriageError>
    ensures rows { IfOk result (λ rows.
        AreRows overrides.now (map (λ text. text.now) texts.now) rows.items) }
    ensures unrejected { OnOk result (HasNoRejectionBefore (map (λ text. text.now) texts.now)
        (length (map (λ text. text.now) texts.now))) }
    ensures rejected { IfErr result (λ reported. (reported ≡ OutOfMemory)
        ⊎ ReportsFirstRejected (map (λ text. text.now) texts.now) reported) }
    ensures rejects { (place : ℕ) (reason : Rejection MetricType)
        → IsFirstRejected (map (λ text. text.now) texts.now) place reason
        → IsErrAnd result (ReportsFault (InText place reason)) }
{
    let mut rows = Vec::with_capacity(alloc, texts.len())?;
    for (index, text) in texts.iter().enumerate() {
        match Vector::from_str(alloc, text) {
            Ok(vector) => rows.push(Row::of(alloc, text, &vector.overridden_by(overrides))?)?,
            Err(error) => return Err(TriageError::of_text(index, error)),
        }
    }
    Ok(rows)
}
