//! What an operand of a command names.

ghost use Rattle.std.specs.Prelude.{◌≡◌};
ghost use Rattle.cvss_frame.specs.Sources.{has_name, is_vector, source_of};

/// What an operand names.
#[derive(Drop)]
pub enum Source {
    /// Standard input, by `-`.
    Input,
    /// The operand is itself the text of a vector.
    Vector,
    /// A file.
    File,
}

/// What an operand names: an operand with a colon before its first slash is a vector, so `./` before
/// such a name makes it a file.
pub fn source_of(operand: &[u8]) -> Source
    ensures { result ≡ source_of operand.now }
{
    match operand {
        b"-" => Source::Input,
        _ if is_vector(operand) => Source::Vector,
        _ => Source::File,
    }
}

/// Whether a source has a name that answers may begin with.
pub fn has_name(source: Source) -> bool
    ensures { result ≡ has_name source }
{
    !matches!(source, Source::Vector)
}

fn is_vector(operand: &[u8]) -> bool
    ensures { result ≡ is_vector operand.now }
{
    let mut left = operand;
    while let Some((byte, rest)) = left.split_first() {
        if *byte == b':' {
            return true;
        }
        if *byte == b'/' {
            return false;
        }
        left = rest;
    }
    false
}
