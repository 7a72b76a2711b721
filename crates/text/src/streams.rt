// Reading and writing whose failures are noticed: each gets a line on standard error.
ghost use Rattle.std.specs.Prelude.{◌≤◌, length};
ghost use Rattle.text.specs.Reads.{Fills};

use crate::program::Program;
use std::fmt::Display;
use std::fs::OpenFile;
use std::io;
use std::io::{Error, ErrorKind, Write};

// The longest name of a file that the system opens. (Names are read into arrays of so many bytes:
// they may be no text, and a String allocates, so that a program could be out of memory.)
pub const MOST_NAME: usize = 4095;

// Reads once, into a buffer that is filled up to some position, and answers up to where it is
// filled then. Where that is no further the input has ended, or the buffer is full.
pub fn read_more<R: io::Read>(source: &mut R, buffer: &mut [u8], from: usize) -> io::Result<usize>
    requires { from ≤ length buffer.old }
    ensures { Fills result from buffer.new }
{
    let n = source.read(&mut buffer[from..])?;
    Ok(from + n)
}

// Reads until the buffer is full or the input ends. (A loop, since what std has for it allocates
// or does not say how far the buffer is filled.)
pub fn read_full<R: io::Read>(source: &mut R, buffer: &mut [u8]) -> io::Result<usize>
    ensures { Fills result 0 buffer.new }
{
    let mut done = 0;
    while done < buffer.len() {
        let n = read_more(source, buffer, done)?;
        if n == done {
            break;
        }
        done = n;
    }
    Ok(done)
}

// What is open for writing, and why a write failed, if one has, after which nothing more is
// written. (No write answers a Result: after one that fails the programs go on saying on standard
// error what is to be said.)
#[derive(Drop)]
pub struct Output<W> {
    to: W,
    failure: Option<Error>,
}

impl<W: Write> Output<W> {
    // What was just opened.
    pub fn to(to: W) -> Output<W> {
        Output { to, failure: None }
    }

    // Whether a write has failed.
    pub fn has_failed(&self) -> bool {
        self.failure.is_some()
    }

    // Writes bytes as they are.
    pub fn bytes(&mut self, bytes: &[u8]) {
        if self.failure.is_none() {
            self.failure = self.to.write_all(bytes).err();
        }
    }

    // Writes a text: `write!` and `writeln!` call this.
    pub fn write_fmt<D: Display + Drop>(&mut self, text: D) {
        if self.failure.is_none() {
            self.failure = self.to.write_fmt(text).err();
        }
    }
}

impl<W: Write + Drop> Output<W> {
    // Ends standard output: says so if a write failed.
    pub fn end(self, program: Program<'_>) {
        if let Some(why) = self.failure {
            program.say_unwritten(b"standard output", why);
        }
    }
}

impl<F: Write + OpenFile + Drop> Output<F> {
    // Ends a file of this name and closes it: whether all was written. If not, it says so. After a
    // write that fails it leaves the file empty, where that can be done, so that no part is taken
    // for the whole. (A flag and no Result: why it failed has been said then.)
    pub fn close(self, program: Program<'_>, name: &[u8]) -> bool {
        if let Some(why) = self.failure {
            program.say_unwritten(name, why);
            let _ = self.to.set_len(0);
            return false;
        }
        if let Some(why) = unsettled(&self.to) {
            program.say_unwritten(name, why);
            return false;
        }
        true
    }
}

// Has the system write what it was given, and answers why it cannot, for a failure of that would
// else be told nowhere: std closes a file without a word. A pipe, a terminal and the like have
// nothing of the sort, which is no failure.
fn unsettled<F: OpenFile>(file: &F) -> Option<Error> {
    let why = file.sync_data().err()?;
    match why.kind() {
        ErrorKind::InvalidInput | ErrorKind::Unsupported => None,
        _ => Some(why),
    }
}
