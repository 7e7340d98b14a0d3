// Inputs and outputs. Nothing is kept back or read ahead: what a call reads or writes, the system reads or writes within it.
ghost use Rattle.std.specs.Prelude.{◌≤◌, length};
ghost use Rattle.std.specs.Io.{ReadsAtMost};
ghost use Rattle.io.specs.Counts.{IsPrefixLen};

use std::fs::File;
use std::io::{Error, ErrorKind, Read, Result, Stdin, Write};

// Where bytes come from: standard input, or a file, which is closed when this is dropped.
#[derive(Drop)]
pub enum Input {
    Standard(Stdin),
    Named(File),
}

// Where bytes go: a file, which is closed when this is dropped.
#[derive(Drop)]
pub enum Output {
    Named(File),
}

// A name as text.
fn path_of(name: &[u8]) -> Result<&str> {
    std::str::from_utf8(name).map_err(|_| Error::new(
        ErrorKind::InvalidFilename,
        "The name is not UTF-8",
    ))
}

// Opens the named file to read. A call of its own: within its callers they would hold room for a path, 8 KB of stack, while they read.
#[inline(never)]
pub fn open(rt: HostRuntime, name: &[u8]) -> Result<Input> {
    Ok(Input::Named(File::open(&rt, path_of(name)?)?))
}

// Opens the named file to write, and empties it; if there is none, makes it.
pub fn create(rt: HostRuntime, name: &[u8]) -> Result<Output> {
    Ok(Output::Named(File::create(&rt, path_of(name)?)?))
}

// Reads once. No bytes are the end.
pub fn read(input: &Input, place: &mut [u8]) -> Result<usize>
    ensures { ReadsAtMost result place.new }
{
    match input {
        Input::Standard(standard) => {
            let mut from = standard;
            from.read(place)
        }
        Input::Named(file) => {
            let mut from = file;
            from.read(place)
        }
    }
}

// Reads once. A read that fails is told to `failed`, and counts as no bytes.
fn read_once<F: Fn(Error)>(input: &Input, place: &mut [u8], failed: F) -> usize
    requires { F.IsAlwaysCallable failed }
    ensures { result ≤ length place.new }
{
    match read(input, place) {
        Ok(got) => got,
        Err(error) => {
            failed(error);
            0
        }
    }
}

// Reads until the block is full or a read brings nothing. A read that brings less than was asked for is not the end. It stays a `while`, since
// how far a turn comes is what the read brings.
pub fn read_block<F: Fn(Error)>(input: &Input, block: &mut [u8], failed: F) -> usize
    requires { F.IsAlwaysCallable failed }
    ensures { IsPrefixLen result block.new }
{
    let mut done = 0;
    while done < block.len() {
        let more = read_once(input, &mut block[done..], &failed);
        if more == 0 {
            return done;
        }
        done += more;
    }
    done
}

// Writes all of the bytes, or fails, when some of them may have been written.
pub fn write(output: &Output, bytes: &[u8]) -> Result<()> {
    let Output::Named(file) = output;
    let mut to = file;
    to.write_all(bytes)
}

// The same to standard output.
pub fn print(rt: HostRuntime, bytes: &[u8]) -> Result<()> {
    let mut to = rt.stdout();
    Write::write_all(&mut to, bytes)
}
