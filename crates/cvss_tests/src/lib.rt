//! Tests of what no stored line shows: types and their traits, values that no text denotes, JSON
//! values that are no strings, runs over readers and writers that no file is, and callers. Texts,
//! scores and rejections are lines of `test_vectors`.
#![tactic(auto)]

#[cfg(test)]
mod arguments;
#[cfg(test)]
mod errors;
#[cfg(test)]
mod examples;
#[cfg(test)]
mod json;
#[cfg(test)]
mod lines;
#[cfg(test)]
mod metrics;
#[cfg(test)]
mod paths;
#[cfg(test)]
mod runs;
#[cfg(test)]
mod scores;
#[cfg(test)]
mod scoring;
#[cfg(test)]
mod surface;
#[cfg(test)]
mod triage;
#[cfg(test)]
mod values;
#[cfg(test)]
mod vectors;
