#![tactic(auto)]

// Prints what refusals mean: for each number that is given a line with its sentence; without
// numbers a line for each refusal, with its number. What is no refusal's number gets a line on
// standard error, and so does a write that fails.
use rules::refusal::Refusal;
use std::env::Env;
use std::fmt;
use std::fmt::{Display, InlineText};
use std::io::Stdout;
use text::arguments::{arg_count, wish_of};
use text::program::Program;
use text::streams::Output;
use text::words::number_of;

const USAGE: &str = "\
usage: explain [NUMBER ..]
Prints why a list, a pack or a call is refused with each number; without numbers all refusals.
";

// More bytes than a number has.
const WORD: usize = 16;

// More bytes than a sentence has with its line feed.
const SENTENCE: usize = 160;

// The number that argument i is, if it is one.
fn number_at(env: &impl Env, i: usize) -> Option<u16> {
    let mut word = [0u8; WORD];
    let n = env.arg(i, &mut word).ok()?;
    number_of(&word[..n])
}

// The refusal with a number, if one has it.
fn refusal_of(n: u16) -> Option<Refusal> {
    let at = usize::from(n).checked_sub(1)?;
    Refusal::ALL.get(at).copied()
}

// The sentence of a refusal, with its line feed.
#[derive(Clone, Copy)]
struct Sentence(Refusal);

impl Display for Sentence {
    fn fmt<W: fmt::Write>(&self, f: &mut fmt::Formatter<W>) -> fmt::Result {
        self.0.fmt(f)?;
        f.write_str("\n")
    }
}

// Writes the sentence of a refusal, in one write.
fn print_sentence(out: &mut Output<Stdout>, refusal: Refusal) {
    let line = InlineText::<{ SENTENCE }>::of(Sentence(refusal));
    out.bytes(line.as_str().as_bytes());
}

// Writes the sentence of the refusal that argument i names; or says that the number is none's.
fn explain(program: Program<'_>, out: &mut Output<Stdout>, i: usize) {
    match number_at(program.rt, i).and_then(refusal_of) {
        Some(refusal) => print_sentence(out, refusal),
        None => program.say("refusals have the numbers 1 to 26"),
    }
}

// Explains each argument; without any, writes every refusal's number and sentence.
fn run(program: Program<'_>) {
    let mut out = Output::to(program.rt.stdout());
    let count = arg_count(program.rt);
    if count < 2 {
        for refusal in Refusal::ALL {
            write!(out, "{} ", refusal.number());
            print_sentence(&mut out, refusal);
        }
    }
    for i in 1..count {
        explain(program, &mut out, i);
    }
    out.end(program);
}

fn main(rt: HostRuntime) {
    let program = Program {
        rt: &rt,
        name: b"explain",
    };
    program.start(wish_of(&rt, 1, usize::MAX), USAGE, run);
}
