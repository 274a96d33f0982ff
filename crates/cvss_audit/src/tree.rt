//! JSON objects as answers: each on one line, without spaces. Parts of them may be borrowed.

pub mod text;
pub mod value;
pub mod write;
