#![tactic(auto)]

// Reads a pack from standard input and prints a line with six times the volume of its model: `six`
// and the number, in cubic grid steps, negative where the model is inside out. A refused pack
// prints one line with its number. With arguments it does so for each in turn: the pack of the file
// that it names, or for "-" that of standard input. What cannot be read gets a line on standard
// error and prints nothing; after a write that fails there is such a line too, and the program
// ends.
use measuring::volume_on;
use rules::{Builder, CORNERS};
use std::io::Stdout;
use text::arguments::wish_of;
use text::packs::BUFFER;
use text::program::Program;
use text::show::print_refusal;
use text::streams::Output;

const USAGE: &str = "\
usage: volume [PACK ..]
Prints six times the volume of the model in each pack, of a file or of standard input (-): six and the number;
or refused and the number of the refusal, which the program explain explains.
";

// Measures a pack and prints the answer.
fn measure(out: &mut Output<Stdout>, pack: &[u8], triangles: &mut [u16]) {
    match volume_on(pack, triangles, Builder::MAX_PLACES) {
        Ok((_, six)) => writeln!(out, "six {six}"),
        Err(refusal) => print_refusal(out, refusal.number()),
    }
}

fn run(program: Program<'_>) {
    let mut pack = [0u8; BUFFER];
    let mut triangles = [0u16; CORNERS];
    program.answer_each(|i, out| {
        if let Ok(n) = program.read_pack(i, &mut pack) {
            measure(out, &pack[..n], &mut triangles);
        }
    });
}

fn main(rt: HostRuntime) {
    let program = Program {
        rt: &rt,
        name: b"volume",
    };
    program.start(wish_of(&rt, 1, usize::MAX), USAGE, run);
}
