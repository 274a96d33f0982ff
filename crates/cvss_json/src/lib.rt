//! JSON text: strings, numbers and objects, which are written into a sink or, where they are short, without
//! memory.
#![tactic(auto)]

mod escape;
pub mod laws;
mod member;
mod number;
mod page;
mod sink;

pub use escape::{put_escaped, put_string};
pub use member::{Member, Members, Scalar, Scalars, put_member, put_name, put_object};
pub use number::put_whole;
pub use page::Page;
pub use sink::{Growing, Sink};
