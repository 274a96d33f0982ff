//! Why bytes are no vector's text.

ghost use Rattle.std.specs.Prelude.{Some};
ghost use Rattle.cvss_vector.specs.Bytes.{bytes_error_text};

use cvss_base::Error;
use std::fmt;

/// Why bytes are no vector's text.
#[derive(Clone, Debug, Drop, PartialEq, Eq)]
pub enum BytesError {
    /// The bytes are not UTF-8.
    NotUtf8,
    /// The text is rejected.
    Invalid(Error),
}

impl fmt::Display for BytesError {
    ghost output = { λ error. Some (bytes_error_text error) };

    fn fmt<W: fmt::Write>(&self, f: &mut fmt::Formatter<W>) -> fmt::Result {
        match self {
            BytesError::NotUtf8 => f.write_str("not UTF-8"),
            BytesError::Invalid(error) => error.fmt(f),
        }
    }
}

impl std::error::Error for BytesError {}
