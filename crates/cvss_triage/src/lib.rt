//! `cvss triage`: the lines of its inputs, or the records of tables, ranked by the scores of their vectors
//! after an organisation's own metrics are set in them.
#![tactic(auto)]

mod counting;
mod form;
mod input;
mod inputs;
pub mod laws;
mod lines;
mod locations;
mod messages;
mod overrides;
mod own_metrics;
mod preferring;
mod ranking;
mod reading;
mod records;
mod report;
mod row;
mod rows;
mod served;
mod settings;
mod style;
mod table;
mod triage;

use cvss_vector::{v2, v3};
pub use form::Form;
pub use overrides::{Family, Override};
pub use preferring::Preference;
pub use settings::{Setting, SettingKind};
pub use triage::{Triage, rank_operands};
