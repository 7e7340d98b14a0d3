// The program's arguments. An argument is bytes, and need not be text.
ghost use Rattle.std.specs.Io.{ReadsAtMost};

use std::env::FillError;
use std::io::{Error, Result};
use std::rt::Env;

// C's numbers for a name that is too long, and for an argument that is not there.
const TOO_LONG: i32 = 36;

const INVALID: i32 = 22;

fn error_of(why: FillError) -> Error {
    match why {
        FillError::TooLong => Error::from_raw_os_error(TOO_LONG),
        FillError::NotPresent => Error::from_raw_os_error(INVALID),
    }
}

// Reads argument i to the front of the buffer. Answers its length. It fails where there is no such argument, or where it is longer than the
// buffer; then the buffer may hold its first bytes.
pub fn argument(rt: HostRuntime, i: usize, buffer: &mut [u8]) -> Result<usize>
    ensures { ReadsAtMost result buffer.new }
{
    rt.arg(i, buffer).map_err(error_of)
}

fn is_there(rt: HostRuntime, i: usize) -> bool {
    let mut first = [0u8; 1];
    !matches!(rt.arg(i, &mut first), Err(FillError::NotPresent))
}

// How many arguments the program was started with, its own name among them. A proved loop has to end: this one does, at the latest, when the
// numbers run out.
pub fn argument_count(rt: HostRuntime) -> usize {
    for i in 0..usize::MAX {
        if !is_there(rt, i) {
            return i;
        }
    }
    usize::MAX
}
