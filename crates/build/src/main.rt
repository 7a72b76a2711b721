#![tactic(auto)]

// Reads building calls from standard input, or from the file that an argument names, a line for
// each, and prints the answers, a line for each:
//     begin V T PLACES LOOPS ENTRIES RECORDS     a beginning with these counts, in buffers of these
//                                                lengths
//     op NAME [NUMBERS]                          an operation
//     finish
// A line that starts with # is its own answer, one that is no call is answered by `error`, and gets
// a line on standard error too. A line is answered as soon as it is read. One that is too long is
// not run: it gets a line on standard error, and so does a read or a write that fails; each of
// these ends the program.
mod answer; // the calls and their answers
mod words; // the words of a line

ghost use Rattle.std.specs.Prelude.{◌≤◌, ◌<◌, length, IfSome};

use crate::answer::Session;
use std::io::Error;
use text::arguments::wish_of;
use text::inputs::Source;
use text::program::Program;
use text::streams::{MOST_NAME, read_more};

const USAGE: &str = "\
usage: build [CALLS]
Answers building calls, of a file or of standard input (-), a line for each:
  begin V T PLACES LOOPS ENTRIES RECORDS
  op new | forward | backward | border | split I | close | union P J | start
  finish
by ok and what the call gives; or by refused and the number, which the program explain explains; or by error
if the line is none of these. A line that starts with # is its own answer.
";

// The most bytes of a line. The buffer has one more, for its line feed or to tell a longer line.
// (It is an array, since std's lines are strings, which allocate.)
const MOST_BYTES: usize = 65536;

// Input that cannot be read is not at its end: the line that has begun is not run.
fn say_unread(program: Program<'_>, source: &Source, why: Error) {
    match source {
        Source::Standard(_) => program.say_failed(b"cannot read standard input", why),
        Source::File(_) => program.say_failed(b"cannot read the calls", why),
    }
}

// Answers each line that has ended, of which none ends before a position, and answers where the
// next begins.
fn answer_whole(session: &mut Session<'_>, input: &[u8], from: usize) -> usize
    requires { from ≤ length input.now }
    ensures { result ≤ length input.now }
{
    let Some(last) = input[from..].iter().rposition(|b| *b == b'\n') else {
        return 0;
    };
    let end = from + last;
    for line in input[..end].split(|b| *b == b'\n') {
        session.answer_line(line);
    }
    end + 1
}

// Keeps the bytes of a line that has not ended, those between two positions, at the front, and
// answers how many they are; or nothing, where the program is over: a line that the buffer cannot
// hold is not run.
fn keep_rest(session: &Session<'_>, input: &mut [u8], from: usize, to: usize) -> Option<usize>
    requires { (from ≤ to) × (to ≤ length input.old) }
    ensures { IfSome result (λ held. held < length input.old) }
{
    if session.out.has_failed() {
        return None;
    }
    if 0 < from {
        input.copy_within(from..to, 0);
    }
    let held = to - from;
    if held == input.len() {
        session.program.say("a line of more than 65,536 bytes is not run, nor is what follows it");
        return None;
    }
    Some(held)
}

// Reads once, behind the bytes that are held of a line that has not ended, and answers the lines
// that have ended by then; then how many bytes are held, or nothing, where the program is over.
// There is room, so that nothing read is the end of the input, which may end a line.
fn take_turn(
    session: &mut Session<'_>,
    source: &mut Source,
    input: &mut [u8],
    held: usize,
) -> Option<usize>
    requires { held < length input.old }
    ensures { IfSome result (λ held. held < length input.old) }
{
    let n = match read_more(source, input, held) {
        Ok(n) => n,
        Err(why) => {
            say_unread(session.program, source, why);
            return None;
        }
    };
    if n == held {
        if 0 < n {
            session.answer_line(&input[..n]);
        }
        return None;
    }
    let next = answer_whole(session, &input[..n], held);
    keep_rest(session, input, next, n)
}

// Reads the calls and answers them. The count of turns is one that no input uses up.
fn answer_all(session: &mut Session<'_>, source: &mut Source) {
    let mut input = [0u8; MOST_BYTES + 1];
    let mut held = 0;
    for _ in 0..u64::MAX {
        match take_turn(session, source, &mut input, held) {
            Some(n) => held = n,
            None => return,
        }
    }
    session.program.say("the input is too long");
}

// Opens the calls and answers them.
fn run(program: Program<'_>) {
    let mut name = [0u8; MOST_NAME];
    let Ok(mut input) = program.open_input(1, &mut name) else {
        return;
    };
    let mut session = Session::new(program);
    answer_all(&mut session, &mut input.source);
    session.out.end(program);
}

fn main(rt: HostRuntime) {
    let program = Program {
        rt: &rt,
        name: b"build",
    };
    program.start(wish_of(&rt, 1, 1), USAGE, run);
}
