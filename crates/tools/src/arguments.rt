// Arguments: words, numbers in their ranges, and files by name. An argument is bytes, and need not be text.
ghost use Rattle.std.specs.Prelude.{◌≤◌, length};

use crate::problem::{About, Field, Problem};
use host::{Input, Output};
use refusals::Refusal;
use setting::{Kind, limits};

// The fields that several of the programs have.
pub(crate) const PID: Field = Field {
    name: "PID",
    first: limits::FIRST_PID as u32,
    last: limits::LAST_PID as u32,
    refusal: Refusal::HeaderPid,
};

pub(crate) const TS_ID: Field = Field {
    name: "TS_ID",
    first: 0,
    last: 65535,
    refusal: Refusal::OutOfRange,
};

pub(crate) const NETWORK_ID: Field = Field {
    name: "NETWORK_ID",
    ..TS_ID
};

// Argument i of the program, in the buffer's first bytes; no bytes if there is no such argument.
pub(crate) fn word(rt: HostRuntime, i: usize, buffer: &mut [u8]) -> &[u8]
    ensures { length result.now ≤ length buffer.old }
{
    let n = host::argument(rt, i, buffer).unwrap_or(0);
    &buffer[..n]
}

// All of the text as a number in this base. A number has at least one digit. The library's `from_str_radix` would take a sign too.
fn in_base(digits: &[u8], base: u32) -> Option<u32>
    requires { (2 ≤ base) × (base ≤ 16) }
{
    if digits.is_empty() {
        return None;
    }
    let mut value = 0u32;
    for digit in digits {
        let more = char::from(*digit).to_digit(base)?;
        value = value.checked_mul(base)?.checked_add(more)?;
    }
    Some(value)
}

// A number in decimal, or in hexadecimal behind 0x.
fn number_in(text: &[u8]) -> Option<u32> {
    match text {
        [b'0', b'x', digits @ ..] => in_base(digits, 16),
        _ => in_base(text, 10),
    }
}

impl Field {
    // A text as a number of this field.
    pub(crate) fn read<T: TryFrom<u32>>(self, about: About, text: &[u8]) -> Result<T, Problem>
    where
        T::Error: Drop,
    {
        if let Some(n) = number_in(text)
            && (self.first..=self.last).contains(&n)
            && let Ok(value) = T::try_from(n)
        {
            return Ok(value);
        }
        Err(Problem::Range(about, self))
    }
}

// The arguments of one of the programs, counted from 0, behind the words that say which program it is.
#[derive(Clone, Copy)]
pub(crate) struct Arguments {
    pub(crate) rt: HostRuntime,
    first: usize,
}

impl Arguments {
    pub(crate) fn new(rt: HostRuntime, first: usize) -> Arguments {
        Arguments { rt, first }
    }

    pub(crate) fn count(self) -> usize {
        host::argument_count(self.rt).saturating_sub(self.first)
    }

    // The arguments behind the first n.
    pub(crate) fn behind(self, n: usize) -> Arguments {
        Arguments::new(self.rt, self.first.saturating_add(n))
    }

    // Where argument i stands among all that the program was started with.
    fn place(self, i: usize) -> usize {
        self.first.saturating_add(i)
    }

    pub(crate) fn word(self, i: usize, buffer: &mut [u8]) -> &[u8] {
        word(self.rt, self.place(i), buffer)
    }

    // Argument i as a number of this field.
    pub(crate) fn number<T: TryFrom<u32>>(
        self,
        i: usize,
        about: About,
        field: Field,
    ) -> Result<T, Problem>
    where
        T::Error: Drop,
    {
        let mut buffer = io::buffer();
        field.read(about, self.word(i, &mut buffer))
    }

    // The kind of the frames, and the arguments behind the option that asks for short ones.
    pub(crate) fn kind(self) -> (Kind, Arguments) {
        let mut buffer = io::buffer();
        if self.word(0, &mut buffer) == b"--short".as_slice() {
            return (Kind::Short, self.behind(1));
        }
        (Kind::Plain, self)
    }

    // Opens the file that argument i names, to read; `-` is standard input.
    pub(crate) fn open(self, i: usize) -> Result<Input, Problem> {
        let mut buffer = io::buffer();
        match self.word(i, &mut buffer) {
            b"-" => Ok(Input::Standard(self.rt.stdin())),
            name => host::open(self.rt, name).map_err(|error| Problem::Open(self.place(i), error)),
        }
    }

    // Opens the file that argument i names, to write, and empties it.
    pub(crate) fn create(self, i: usize) -> Result<Output, Problem> {
        let mut buffer = io::buffer();
        let name = self.word(i, &mut buffer);
        host::create(self.rt, name).map_err(|error| Problem::Open(self.place(i), error))
    }
}
