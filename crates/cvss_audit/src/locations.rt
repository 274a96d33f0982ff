//! Where vectors are in a document.

pub mod form;
mod ids;
pub mod location;
pub mod member;
mod pointer;
pub mod walk;
