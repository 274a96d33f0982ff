//! What follows from the definitions: theorems, each the contract of a function that does nothing. A
//! proof that needs a law calls it. No code of the library rests on them.
#![tactic(auto)]

pub mod any;
pub mod base;
pub mod number;
pub mod v2;
pub mod v3;
pub mod v4;
