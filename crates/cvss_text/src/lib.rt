//! How the text of a vector is read and printed, once for all versions: pieces, the walk over them,
//! which version a text says, printing, listing, setting metrics, and recognising a canonical text.
#![tactic(auto)]

mod beginning;
pub mod buffer;
pub mod cutting;
pub mod fast_path;
mod fields;
pub mod front;
pub mod in_order;
pub mod metrics;
pub mod pieces;
pub mod print;
pub mod route;
pub mod setting;
pub mod texts;
pub mod values;
pub mod walk;
