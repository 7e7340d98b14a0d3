// How much of an input is left.
use crate::Input;
use std::fs;
use std::fs::{File, Metadata};
use std::io::{Read, Result, Seek, SeekFrom};
use std::os::unix::fs::FileTypeExt;

// Standard input by name, and where Linux says how far it was read.
const STANDARD: &str = "/dev/stdin";

const STANDARD_PLACE: &str = "/proc/self/fdinfo/0";

// The number in a first line as `pos:   123`.
fn place_in(text: &str) -> Option<u64> {
    let (first, _) = text.split_once('\n')?;
    let number = first.strip_prefix("pos:")?;
    number.trim().parse::<u64>().ok()
}

fn read_place(rt: HostRuntime, text: &mut [u8]) -> Option<u64> {
    let mut file = File::open(&rt, STANDARD_PLACE).ok()?;
    let n = file.read(text).ok()?;
    place_in(std::str::from_utf8(&text[..n]).ok()?)
}

// How far standard input was read.
fn standard_place(rt: HostRuntime) -> Option<u64> {
    let mut text = [0u8; 64];
    read_place(rt, &mut text)
}

// Whether what is open has an end that is known before it is read: a pipe, a socket and a terminal have none.
fn has_end(about: &Metadata) -> bool {
    let kind = about.file_type();
    kind.is_file() || kind.is_dir() || kind.is_block_device()
}

fn standard_end(rt: HostRuntime, about: &Metadata) -> Result<u64> {
    if about.is_file() {
        return Ok(about.len());
    }
    let mut file = File::open(&rt, STANDARD)?;
    file.seek(SeekFrom::End(0))
}

fn left_of_standard(rt: HostRuntime) -> Option<u64> {
    let about = fs::metadata(&rt, STANDARD).ok()?;
    if !has_end(&about) {
        return None;
    }
    let here = standard_place(rt)?;
    let end = standard_end(rt, &about).ok()?;
    Some(end.wrapping_sub(here))
}

fn left_of_file(file: &File) -> Option<u64> {
    let mut at = file;
    let here = at.seek(SeekFrom::Current(0)).ok()?;
    let end = at.seek(SeekFrom::End(0)).unwrap_or(0);
    let _ = at.seek(SeekFrom::Start(here));
    Some(end.wrapping_sub(here))
}

// How many bytes are left of an input, or none where this cannot be known before its end, as of a pipe. The next read starts where it did.
pub fn left(rt: HostRuntime, input: &Input) -> Option<u64> {
    match input {
        Input::Standard(_) => left_of_standard(rt),
        Input::Named(file) => left_of_file(file),
    }
}

#[cfg(test)]
mod tests {
    use super::*;

    #[test]
    fn reads_the_first_line(rt: HostRuntime) {
        assert!(rt; place_in("pos:\t188\nflags:\t0100000\n") == Some(188));
        assert!(rt; place_in("pos:\t0\n") == Some(0));
        assert!(rt; place_in("flags:\t0\n") == None);
    }
}
