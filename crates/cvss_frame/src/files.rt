//! Files by their names.

ghost use Rattle.std.specs.Io.{ReadsAtMost};
ghost use Rattle.std.specs.Prelude.{◌≡◌, ℕ, IfOk, List, None, Option};

use std::fs::File;
use std::io::{self, ErrorKind, Read};

/// Files that can be read, each by its name.
pub trait Files {
    type File: Read + Drop;

    /// The bytes of each file, where they are known.
    ghost contents: { Self → List ℕ → Option (List ℕ) } = { λ _ _. None };

    /// The file of this name, to be read from its beginning.
    ///
    /// # Errors
    ///
    /// Why it cannot be opened.
    fn open(&self, name: &[u8]) -> io::Result<Self::File>
        ensures { IfOk result (λ file. Self.File.remaining file ≡ contents self.now name.now) };
}

/// The files of the system. No contract says what they contain.
#[derive(Drop)]
pub struct SystemFiles<'a> {
    pub runtime: &'a HostRuntime,
}

impl<'a> Files for SystemFiles<'a> {
    type File = File;

    fn open(&self, name: &[u8]) -> io::Result<File> {
        match str::from_utf8(name) {
            Ok(name) => File::open(self.runtime, name),
            Err(_) => Err(io::Error::from(ErrorKind::InvalidFilename)),
        }
    }
}
