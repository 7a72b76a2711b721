// What a program reads: the file that an argument names; standard input where the argument is `-`
// or missing.
ghost use Rattle.text.specs.Reads.{Fills, Holds, Names};

use crate::numbers::{Form, TextError, read_numbers};
use crate::program::Program;
use crate::streams::{MOST_NAME, read_full};
use std::env::{Env, FillError};
use std::fs::File;
use std::io::{Error, ErrorKind, Stdin};
use std::{io, str};

// What is open for reading.
#[derive(Drop)]
pub enum Source {
    Standard(Stdin),
    File(File),
}

// An input that is open, and what is said where it cannot be read: a file's name, or what else.
#[derive(Drop)]
pub struct OpenInput<'n> {
    pub source: Source,
    pub name: &'n [u8],
}

impl io::Read for Source {
    fn read(&mut self, buffer: &mut [u8]) -> io::Result<usize> {
        match self {
            Source::Standard(stdin) => stdin.read(buffer),
            Source::File(file) => file.read(buffer),
        }
    }
}

// What a name is as text. std opens no other: where it is none, it names no file.
pub(crate) fn path_of(name: &[u8]) -> io::Result<&str> {
    match str::from_utf8(name) {
        Ok(path) => Ok(path),
        Err(_) => Err(Error::new(ErrorKind::InvalidInput, "the name is not UTF-8")),
    }
}

// What argument i names: the file whose name is then at the start of a buffer, with its length, or
// standard input.
fn input_name(env: &impl Env, i: usize, name: &mut [u8]) -> Result<Option<usize>, FillError>
    ensures { Names result name.new }
{
    match env.arg(i, name) {
        Err(FillError::NotPresent) => Ok(None),
        Err(why) => Err(why),
        Ok(n) if &name[..n] == b"-".as_slice() => Ok(None),
        Ok(n) => Ok(Some(n)),
    }
}

impl Program<'_> {
    // Says why an argument is no name: it is longer than any, or it is not there.
    pub(crate) fn say_no_name(self, why: FillError) {
        self.say_line(match why {
            FillError::TooLong => b"argument: File name too long",
            FillError::NotPresent => b"argument: Invalid argument",
        });
    }

    // Opens the file of a name, or says why it cannot be opened.
    fn open_file(self, name: &[u8]) -> io::Result<File> {
        let opened = open_path(self.rt, name);
        if let Err(why) = &opened {
            self.say_failed(name, *why);
        }
        opened
    }

    // Opens what argument i names, and puts its name into a buffer, or says why it cannot
    // be opened.
    pub fn open_input<'n>(self, i: usize, name: &'n mut [u8]) -> io::Result<OpenInput<'n>> {
        match input_name(self.rt, i, name) {
            Ok(None) => Ok(OpenInput {
                source: Source::Standard(self.rt.stdin()),
                name: b"cannot read standard input",
            }),
            Ok(Some(n)) => Ok(OpenInput {
                source: Source::File(self.open_file(&name[..n])?),
                name: &name[..n],
            }),
            Err(why) => {
                self.say_no_name(why);
                Err(Error::from(ErrorKind::InvalidFilename))
            }
        }
    }

    // Reads the bytes of what argument i names, as many as fit, or says why it cannot be read.
    pub fn read_input(self, i: usize, buffer: &mut [u8]) -> io::Result<usize>
        ensures { Fills result 0 buffer.new }
    {
        let mut name = [0u8; MOST_NAME];
        let mut input = self.open_input(i, &mut name)?;
        let read = read_full(&mut input.source, buffer);
        if let Err(why) = read {
            self.say_failed(input.name, why);
        }
        read
    }

    // Reads the numbers of what argument i names, as many as fit, or says why it has none of this
    // form or cannot be read whole.
    pub fn read_input_numbers(
        self,
        i: usize,
        form: Form,
        part: &mut [u8],
        numbers: &mut [u16],
    ) -> Result<usize, TextError>
        ensures { Holds result numbers.new }
    {
        let mut name = [0u8; MOST_NAME];
        let mut input = self.open_input(i, &mut name)?;
        let read = read_numbers(&mut input.source, form, part, numbers);
        match read {
            Ok(_) => {}
            Err(TextError::Unread(why)) => self.say_failed(input.name, why),
            Err(why) => self.say(why),
        }
        read
    }
}

// Opens the file of a name.
fn open_path(rt: &HostRuntime, name: &[u8]) -> io::Result<File> {
    File::open(rt, path_of(name)?)
}
