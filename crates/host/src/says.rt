// Why a call failed, on standard error.
ghost use Rattle.std.specs.Prelude.{◌≤◌, length};

use std::io::{Cursor, Error, Write};

const STDERR: i32 = 2;

// The most bytes of an error's text.
const TEXT_BYTES: usize = 256;

// Where a text that has zeros behind it ends. The number of an error of the system, as ` (os error 2)`, is no part of it.
fn text_end(text: &[u8]) -> usize
    ensures { result ≤ length text.now }
{
    for (i, byte) in text.iter().enumerate() {
        if *byte == 0 || text[i..].starts_with(b" (os error ") {
            return i;
        }
    }
    text.len()
}

// The error's text, at the front of a buffer.
fn text_of(error: Error) -> [u8; TEXT_BYTES] {
    let mut to = Cursor::new([0u8; TEXT_BYTES]);
    let _ = write!(to, "{error}");
    to.into_inner()
}

// Writes a line: what failed, a colon and why. By `io::write_all`, since what failed may be a file's name, which is bytes and
// need not be text.
pub fn fail(what: &[u8], error: Error) {
    let text = text_of(error);
    let end = text_end(&text);
    io::write_all(STDERR, what);
    io::write_all(STDERR, b": ");
    io::write_all(STDERR, &text[..end]);
    io::write_all(STDERR, b"\n");
}

#[cfg(test)]
mod tests {
    use super::*;
    use std::io::ErrorKind;

    #[test]
    fn says_the_text_alone(rt: HostRuntime) {
        let of_system = text_of(Error::from_raw_os_error(2));
        let end = text_end(&of_system);
        assert!(rt; of_system[..end].starts_with(b"No such file or directory") && end == 25);
        let of_name = text_of(Error::new(ErrorKind::InvalidFilename, "The name is not UTF-8"));
        let end = text_end(&of_name);
        assert!(rt; of_name[..end].starts_with(b"The name is not UTF-8") && end == 21);
    }
}
