//! Tests of how a program's arguments are read.

use crate::values::Tried;
use cvss_frame::arguments;
use std::alloc::Global;
use std::env::{Env, FillError};
use std::process::Abort;

/// A system that gives these arguments, the program's name first.
#[derive(Drop)]
struct Given<'a> {
    arguments: &'a [&'a [u8]],
}

impl Env for Given<'_> {
    fn arg(&self, index: usize, buffer: &mut [u8]) -> Result<usize, FillError> {
        let Some(argument) = self.arguments.get(index) else {
            return Err(FillError::NotPresent);
        };
        if argument.len() > buffer.len() {
            return Err(FillError::TooLong);
        }
        buffer[..argument.len()].copy_from_slice(argument);
        Ok(argument.len())
    }

    fn var(&self, _name: &str, _buffer: &mut [u8]) -> Result<usize, FillError> {
        Err(FillError::NotPresent)
    }

    fn var_at(&self, _index: usize, _buffer: &mut [u8]) -> Result<usize, FillError> {
        Err(FillError::NotPresent)
    }
}

#[test]
fn reads_no_argument(rt: HostRuntime) -> Tried {
    are_read(&rt, rt.alloc(), &[b"name"], &[])
}

#[test]
fn reads_short_and_long_arguments(rt: HostRuntime) -> Tried {
    let long = "q".repeat(rt.alloc(), 100_000)?;
    let whole = "q".repeat(rt.alloc(), 256)?;
    let list = [
        b"name".as_slice(),
        b"",
        whole.as_bytes(),
        b"--help",
        long.as_bytes(),
        b"last",
    ];
    are_read(&rt, rt.alloc(), &list, &list[1..])
}

#[test]
fn reads_many_arguments(rt: HostRuntime) -> Tried {
    let list = [b"msi:s".as_slice(); 3000];
    are_read(&rt, rt.alloc(), &list, &list[1..])
}

/// Reads the arguments of a list, and compares them with what is expected.
fn are_read(rt: &impl Abort, alloc: Global, list: &[&[u8]], expected: &[&[u8]]) -> Tried {
    let read = arguments(alloc, &Given { arguments: list })?;
    assert!(rt; read.len() == expected.len());
    for (argument, bytes) in read.iter().zip(expected) {
        assert!(rt; argument.as_slice() == *bytes);
    }
    Ok(())
}
