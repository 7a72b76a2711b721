#![tactic(auto)]

// Reads a model as text from standard input: V, then the vertex numbers, decimal, with white space
// between. It prints `ok` if the list passes 1 to 7, or `refused` and the number. With arguments it
// does so for each in turn: the model of the file that it names, or for "-" that of standard input.
// A text that is no model, and what cannot be read, gets a line on standard error and prints
// nothing; after a write that fails there is such a line too, and the program ends.
use std::io::Stdout;
use text::arguments::wish_of;
use text::numbers::{MODEL, NUMBERS, PART};
use text::program::Program;
use text::show::print_refusal;
use text::streams::Output;

const USAGE: &str = "\
usage: check_list [MODEL ..]
Checks each model, of a file or of standard input (-): V, then the vertex numbers of its triangles, decimal.
Prints ok; or refused and the number of the refusal, which the program explain explains.
";

// Checks a list and prints the answer.
fn check(out: &mut Output<Stdout>, v: u16, list: &[u16]) {
    match mesh::check(usize::from(v), list) {
        Ok(()) => out.bytes(b"ok\n"),
        Err(refusal) => print_refusal(out, refusal.number()),
    }
}

// Checks the list whose numbers were read, V the first.
fn check_numbers(program: Program<'_>, out: &mut Output<Stdout>, numbers: &[u16]) {
    match numbers {
        [v, list @ ..] => check(out, *v, list),
        [] => program.say(MODEL.expected),
    }
}

fn run(program: Program<'_>) {
    let mut part = [0u8; PART];
    let mut numbers = [0u16; NUMBERS];
    program.answer_each(|i, out| {
        if let Ok(n) = program.read_input_numbers(i, MODEL, &mut part, &mut numbers) {
            check_numbers(program, out, &numbers[..n]);
        }
    });
}

fn main(rt: HostRuntime) {
    let program = Program {
        rt: &rt,
        name: b"check_list",
    };
    program.start(wish_of(&rt, 1, usize::MAX), USAGE, run);
}
