// Reading and writing that fail in the midst.
use crate::numbers::{Form, MODEL, Sign, TextError, read_numbers};
use crate::streams::{Output, read_full};
use std::io;
use std::io::{Error, ErrorKind};

// Gives this text, one byte at each turn, and then fails or is at its end.
#[derive(Drop)]
struct Slow<'a> {
    text: &'a [u8],
    at: usize,
    fails: bool,
}

impl<'a> io::Read for Slow<'a> {
    fn read(&mut self, buffer: &mut [u8]) -> io::Result<usize> {
        if self.at < self.text.len() {
            if 0 < buffer.len() {
                buffer[0] = self.text[self.at];
                self.at += 1;
                return Ok(1);
            }
        }
        if self.fails {
            return Err(Error::from(ErrorKind::TimedOut));
        }
        Ok(0)
    }
}

// Takes so many bytes, one at each turn, and then fails.
#[derive(Drop)]
struct Full {
    taken: [u8; 16],
    count: usize,
    room: usize,
    tries: usize,
}

impl io::Write for Full {
    fn write(&mut self, bytes: &[u8]) -> io::Result<usize> {
        self.tries = self.tries.saturating_add(1);
        if bytes.is_empty() || self.room <= self.count || 16 <= self.count {
            return Err(Error::from(ErrorKind::StorageFull));
        }
        self.taken[self.count] = bytes[0];
        self.count += 1;
        Ok(1)
    }

    fn flush(&mut self) -> io::Result<()> {
        Ok(())
    }
}

fn bytes_of(text: &[u8], fails: bool) -> Slow<'_> {
    Slow { text, at: 0, fails }
}

#[test]
fn a_read_that_fails_is_no_end(rt: HostRuntime) {
    let mut buffer = [0u8; 8];
    let whole = read_full(&mut bytes_of(b"3 0", false), &mut buffer);
    assert!(rt; matches!(whole, Ok(3)));
    assert_eq!(rt; buffer[2], b'0');
    let cut = read_full(&mut bytes_of(b"3 0", true), &mut buffer);
    let Err(why) = cut else {
        panic!(rt; "a read that fails is taken for the end");
    };
    assert!(rt; why.kind() == ErrorKind::TimedOut);
    let full = read_full(&mut bytes_of(b"3 0 1 2 ", true), &mut buffer);
    assert!(rt; matches!(full, Ok(8)));
}

// Signed numbers.
const SIGNED: Form = Form {
    sign: Sign::Signed,
    expected: "signed numbers are expected",
};

#[test]
fn numbers_in_pieces(rt: HostRuntime) {
    let mut part = [0u8; 4];
    let mut numbers = [0u16; 3];
    let told = read_numbers(
        &mut bytes_of(b"4096 0\n17", false),
        MODEL,
        &mut part,
        &mut numbers,
    );
    assert!(rt; matches!(told, Ok(3)));
    assert_eq!(rt; numbers[0], 4096);
    assert_eq!(rt; numbers[2], 17);
    let unread = read_numbers(
        &mut bytes_of(b"4096 0\n17", true),
        MODEL,
        &mut part,
        &mut numbers,
    );
    assert!(rt; matches!(unread, Err(TextError::Unread(_))));
    let signed = read_numbers(
        &mut bytes_of(b"-1 -0 9", false),
        SIGNED,
        &mut part,
        &mut numbers,
    );
    assert!(rt; matches!(signed, Ok(3)));
    assert_eq!(rt; numbers[0], 65535);
    let bad = read_numbers(
        &mut bytes_of(b"-1 -0 9", false),
        MODEL,
        &mut part,
        &mut numbers,
    );
    assert!(rt; matches!(bad, Err(TextError::NoNumbers(_))));
}

// Whether a write has failed after a line that fits, and after a number that does not.
fn print_some(to: &mut Full) -> (bool, bool) {
    let mut out = Output::to(to);
    out.bytes(b"six ");
    writeln!(out, "{}", -125);
    let before = out.has_failed();
    write!(out, "{} ", 65535);
    let after = out.has_failed();
    out.bytes(b"more");
    (before, after)
}

#[test]
fn nothing_more_after_a_write_that_fails(rt: HostRuntime) {
    let mut to = Full {
        taken: [0; 16],
        count: 0,
        room: 10,
        tries: 0,
    };
    let (before, after) = print_some(&mut to);
    assert!(rt; !before && after);
    assert_eq!(rt; to.count, 10);
    assert_eq!(rt; to.taken[8], b'\n');
    assert_eq!(rt; to.taken[9], b'6');
    assert_eq!(rt; to.tries, 11);
}
