#![tactic(auto)]

// Reads a pack from standard input, or from the file that an argument names, and writes its note to
// standard output: its bytes as they are and nothing else, so nothing for a pack without a note. A
// refused pack prints one line with its number. A note may read like that line, so that besides
// there is a line on standard error: where nothing stands there, what was written is the note. What
// cannot be read gets a line on standard error and prints nothing, and a write that fails gets such
// a line too.
use notes::reading::bench_on;
use rules::{Builder, CORNERS};
use std::io::Stdout;
use text::arguments::wish_of;
use text::packs::BUFFER;
use text::program::Program;
use text::show::{print_part, print_refusal};
use text::streams::Output;

const USAGE: &str = "\
usage: note [PACK] > model.note
Writes the note of a pack, of a file or of standard input (-): its bytes as they are; nothing if it has none.
Of a refused pack it prints refused and the number, which the program explain explains, and a line on
standard error besides, for a note may read so too.
";

// Writes the note of a pack, or the refusal, of which it says that it is no note.
fn write_note(program: Program<'_>, out: &mut Output<Stdout>, pack: &[u8], triangles: &mut [u16]) {
    match bench_on(pack, triangles, Builder::MAX_PLACES) {
        Ok(located) => {
            if let Some(span) = located.note {
                print_part(out, pack, span.start, span.length);
            }
        }
        Err(refusal) => {
            program.say("the pack is refused: there is no note");
            print_refusal(out, refusal.number());
        }
    }
}

fn run(program: Program<'_>) {
    let mut pack = [0u8; BUFFER];
    let mut triangles = [0u16; CORNERS];
    let mut out = Output::to(program.rt.stdout());
    if let Ok(n) = program.read_pack(1, &mut pack) {
        write_note(program, &mut out, &pack[..n], &mut triangles);
    }
    out.end(program);
}

// Notes of several packs would run together.
fn main(rt: HostRuntime) {
    let program = Program {
        rt: &rt,
        name: b"note",
    };
    program.start(wish_of(&rt, 1, 1), USAGE, run);
}
