// A program that runs, and what it says on standard error.
use crate::arguments::{Wish, input_count};
use crate::streams::Output;
use std::fmt;
use std::fmt::{Display, InlineText};
use std::io::{Error, Stderr, Stdout, Write};

// The most bytes of what the system says of a failure; no text of it has so many.
const REASON: usize = 120;

// What runs: the system that it is lent, and the name that its lines on standard error begin with (bytes, which may be no text).
#[derive(Clone, Copy)]
pub struct Program<'a> {
    pub rt: &'a HostRuntime,
    pub name: &'a [u8],
}

// What the system says of a failure, without the number that std puts after it.
#[derive(Clone, Copy)]
struct Reason(Error);

impl Display for Reason {
    fn fmt<W: fmt::Write>(&self, f: &mut fmt::Formatter<W>) -> fmt::Result {
        let text = InlineText::<{ REASON }>::of(self.0);
        let said = text.as_str();
        match said.split_once(" (os error ") {
            Some((words, _)) => f.write_str(words),
            None => f.write_str(said),
        }
    }
}

impl<'a> Program<'a> {
    // Runs, or prints how the program is used, as the arguments ask.
    pub fn start<F: FnOnce(Program<'a>)>(self, wish: Wish, usage: &str, run: F)
        requires { F.IsAlwaysCallable run }
    {
        match wish {
            Wish::Run => run(self),
            Wish::Help => self.print_usage(self.rt.stdout(), usage),
            Wish::Wrong => self.print_usage(self.rt.stderr(), usage),
        }
    }

    fn print_usage<W: Write + Drop>(self, to: W, usage: &str) {
        let mut out = Output::to(to);
        out.bytes(usage.as_bytes());
        out.end(self);
    }

    // Answers each input in turn on standard output, until a write fails.
    pub fn answer_each<F: FnMut(usize, &mut Output<Stdout>)>(self, mut answer: F)
        requires { F.IsAlwaysCallable answer }
    {
        let mut out = Output::to(self.rt.stdout());
        for i in 1..=input_count(self.rt, 1) {
            answer(i, &mut out);
            if out.has_failed() {
                break;
            }
        }
        out.end(self);
    }

    // A line on standard error, begun with the program's name.
    fn line(self) -> Output<Stderr> {
        let mut line = Output::to(self.rt.stderr());
        line.bytes(self.name);
        line.bytes(b": ");
        line
    }

    // Says why the program stops, or what it leaves out.
    pub fn say<D: Display + Drop>(self, what: D) {
        let mut line = self.line();
        writeln!(line, "{what}");
    }

    // The same of a line of bytes, which may be no text.
    pub fn say_line(self, line: &[u8]) {
        let mut out = self.line();
        out.bytes(line);
        out.bytes(b"\n");
    }

    // Says what the program cannot do, and why. A name may be no text, so that it is bytes.
    pub fn say_failed(self, what: &[u8], why: Error) {
        let mut line = self.line();
        line.bytes(what);
        writeln!(line, ": {}", Reason(why));
    }

    // The same of a file that it cannot write.
    pub fn say_unwritten(self, name: &[u8], why: Error) {
        let mut line = self.line();
        line.bytes(b"cannot write ");
        line.bytes(name);
        writeln!(line, ": {}", Reason(why));
    }
}
