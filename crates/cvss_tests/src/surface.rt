//! The public names of the library, each with its type: every path of the port, every call with
//! its arguments and its result, every trait with its supertraits, every variant, field and
//! constant. It is the promise of names to users of the crate: these modules compile only while all
//! of them exist under these names and types. What a call returns is promised by its contract.
//!
//! An edit of a line here breaks programs of users. A new line, for a new name, breaks none.

mod added;
mod metrics_of_v2;
mod metrics_of_v3;
mod metrics_of_v4;
mod root;
mod runs;
mod v2;
mod v3;
mod v4;

use std::fmt;

/// A type whose values are copied, compared and printed for debugging.
trait Value: Copy + Clone + fmt::Debug + PartialEq + Eq {}

/// A type whose values have a total order.
trait Ordered: Value + PartialOrd + Ord {}

/// The type of an error.
trait Reported: std::error::Error + fmt::Display + fmt::Debug + Clone + PartialEq + Eq {}
