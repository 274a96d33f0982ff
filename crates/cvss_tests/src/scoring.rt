//! The v4 score of effective values, and callers that are proved from its contracts.

mod callers;
mod samples;
mod scores;
