// Problems, for which a program or a part of it gives up: each is one line on standard error.
use crate::arguments;
use header_check::Refused;
use refusals::Refusal;
use std::fmt;
use std::io::Error;

// What a line is about: the whole run, or the stream or the carrier with this number.
#[derive(Clone, Copy)]
pub(crate) enum About {
    Run,
    Stream(u8),
    Carrier(u8),
}

impl fmt::Display for About {
    fn fmt<W: fmt::Write>(&self, f: &mut fmt::Formatter<W>) -> fmt::Result {
        match self {
            About::Run => Ok(()),
            About::Stream(number) => write!(f, "stream {number}: "),
            About::Carrier(number) => write!(f, "carrier {number}: "),
        }
    }
}

// A field of the arguments: its name, the numbers that it may have, and the refusal of any other.
#[derive(Clone, Copy)]
pub(crate) struct Field {
    pub(crate) name: &'static str,
    pub(crate) first: u32,
    pub(crate) last: u32,
    pub(crate) refusal: Refusal,
}

impl Field {
    // A number or a count from 1 to this one.
    pub(crate) fn up_to(name: &'static str, last: u8) -> Field {
        Field {
            name,
            first: 1,
            last: u32::from(last),
            refusal: Refusal::OutOfRange,
        }
    }
}

impl fmt::Display for Field {
    fn fmt<W: fmt::Write>(&self, f: &mut fmt::Formatter<W>) -> fmt::Result {
        write!(
            f,
            "{}: expected a number from {} to {} (refusal {})",
            self.name,
            self.first,
            self.last,
            self.refusal.number()
        )
    }
}

// What a refusal means, as far as the programs can meet it.
fn meaning(refusal: Refusal) -> &'static str {
    match refusal {
        Refusal::Length => "not cut on packet borders",
        Refusal::FixedBits => "wrong bits in the packet header",
        Refusal::SyncBits => "no TSMF sync",
        Refusal::Crc => "wrong CRC",
        Refusal::ReservedBits => "a reserved bit is 0, from another maker or of another kind",
        Refusal::FrameType => "frame type of another kind",
        Refusal::UnavailableNumber => "a slot has the number of a stream that is not available",
        Refusal::EqualIdentifiers => "two streams have the same identifiers",
        Refusal::BondingFields => "bonding fields out of range",
        Refusal::Group => "the headers are not those of the carriers in their order",
        Refusal::UnavailableStream => "no header carries a stream with these identifiers",
        Refusal::Room => "not as many packets as there are slots",
        Refusal::UnfitPacket => "a packet lacks 0x47 at its start or bears the header PID",
        Refusal::HeaderPid
        | Refusal::OutOfRange
        | Refusal::NoFrame
        | Refusal::SyncByte
        | Refusal::OtherPid => "refused",
    }
}

// Why a call was refused, as text: what its refusal means, the remainder of a wrong CRC, and the refusal's number.
#[derive(Clone, Copy)]
pub(crate) struct Why(pub(crate) Refused);

impl fmt::Display for Why {
    fn fmt<W: fmt::Write>(&self, f: &mut fmt::Formatter<W>) -> fmt::Result {
        let Refused { refusal, remainder } = self.0;
        f.write_str(meaning(refusal))?;
        if remainder != 0 {
            write!(f, ", remainder {remainder:08x}")?;
        }
        write!(f, " (refusal {})", refusal.number())
    }
}

// Why a program, or a part of it, gives up.
#[derive(Drop)]
pub(crate) enum Problem {
    // These are no arguments that the program takes.
    Usage(&'static str),
    // A field is no number in its range.
    Range(About, Field),
    // So many bytes stand behind the last whole packet.
    NotCut(About, u64),
    // A call on this was refused.
    Refused(About, &'static str, Refused),
    // The file that this argument names cannot be opened.
    Open(usize, Error),
    // An input cannot be read; standard output, or the file of a carrier, takes no more.
    Read(Error),
    Print(Error),
    Write(About, Error),
}

// Says why a call of the system failed.
fn fail(what: &[u8], error: Error) -> Result<(), Error> {
    host::fail(what, error);
    Ok(())
}

impl Problem {
    // Writes the line. A name of a file is bytes, and need not be text.
    pub(crate) fn say(self, rt: HostRuntime) {
        let mut name = io::buffer();
        let _ = match self {
            Problem::Usage(words) => eprintln!(rt; "usage: {words}"),
            Problem::Range(about, field) => eprintln!(rt; "{about}{field}"),
            Problem::NotCut(about, bytes) => {
                let why = Why(Refused::from(Refusal::Length));
                eprintln!(rt; "{about}{bytes} bytes behind the last whole packet: {why}")
            }
            Problem::Refused(about, what, why) => { eprintln!(rt; "{about}{what}: {}", Why(why)) }
            Problem::Open(i, error) => fail(arguments::word(rt, i, &mut name), error),
            Problem::Read(error) => fail(b"input", error),
            Problem::Print(error) => fail(b"standard output", error),
            Problem::Write(about, error) => {
                let _ = eprint!(rt; "{about}");
                fail(b"output", error)
            }
        };
    }
}

// What came out, or none once the problem is said.
pub(crate) fn said<T: Drop>(rt: HostRuntime, outcome: Result<T, Problem>) -> Option<T> {
    match outcome {
        Ok(value) => Some(value),
        Err(problem) => {
            problem.say(rt);
            None
        }
    }
}

// What a call on this answered, or the problem that it was refused.
pub(crate) fn allowed<T: Drop, E: Into<Refused>>(
    about: About,
    what: &'static str,
    outcome: Result<T, E>,
) -> Result<T, Problem> {
    outcome.map_err(|why| Problem::Refused(about, what, why.into()))
}

// On a long run there is a line of progress every so many frames, which is about a gigabyte, or super frames.
pub(crate) const FRAMES_PROGRESS: u64 = 100000;

pub(crate) const SUPER_FRAMES_PROGRESS: u64 = 10000;

// A line of progress each time that so many more are done.
pub(crate) fn say_progress(rt: HostRuntime, done: u64, every: u64, what: &str) {
    if done.is_multiple_of(every) {
        let _ = eprintln!(rt; "{done} {what}");
    }
}
