#![tactic(auto)]

// Reads a pack from standard input and prints its model: a line with vertices, triangles, edges,
// rims and unions, then a line for each triangle as built. A refused pack prints one line with its
// number. With arguments it does so for each in turn: the pack of the file that it names, or for
// "-" that of standard input. With `--positions FILE` it reads one pack and writes the positions in
// it to that file, a line with x, y and z for each vertex. What cannot be read gets a line on
// standard error and prints nothing; after a write that fails there is such a line too, and the
// program ends.
mod grid; // the positions' file

use grid::write_positions;
use notes::unpacking::unpack_noted_on;
use rules::{Builder, CORNERS};
use std::env::Env;
use std::io::Stdout;
use text::arguments::{Wish, is_name, is_word, wish_of};
use text::packs::BUFFER;
use text::program::Program;
use text::show::{print_model, print_refusal};
use text::streams::Output;

const USAGE: &str = "\
usage: unpack [PACK ..]
       unpack --positions FILE [PACK]
Prints the model of each pack, of a file or of standard input (-): model, vertices, triangles, edges, rims and
unions, then a line for each triangle; or refused and the number of the refusal, which the program explain
explains.
  --positions FILE  writes the positions in the pack to the file: x, y and z of each vertex
";

// Unpacks a pack and prints the model, after its positions if an argument names a file for them.
// Where these cannot be written, nothing is printed.
fn unpack(
    program: Program<'_>,
    out: &mut Output<Stdout>,
    pack: &[u8],
    triangles: &mut [u16],
    named: Option<usize>,
) {
    match unpack_noted_on(pack, triangles, Builder::MAX_PLACES) {
        Ok(m) => {
            if named.is_none_or(|i| write_positions(program, pack, i)) {
                print_model(out, m, triangles);
            }
        }
        Err(refusal) => print_refusal(out, refusal.number()),
    }
}

// Unpacks each pack.
fn run_each(program: Program<'_>) {
    let mut pack = [0u8; BUFFER];
    let mut triangles = [0u16; CORNERS];
    program.answer_each(|i, out| {
        if let Ok(n) = program.read_pack(i, &mut pack) {
            unpack(program, out, &pack[..n], &mut triangles, None);
        }
    });
}

// Unpacks the pack that argument 3 names, and writes its positions to the file that argument 2
// names.
fn run_with_positions(program: Program<'_>) {
    let mut pack = [0u8; BUFFER];
    let mut triangles = [0u16; CORNERS];
    let mut out = Output::to(program.rt.stdout());
    if let Ok(n) = program.read_pack(3, &mut pack) {
        unpack(program, &mut out, &pack[..n], &mut triangles, Some(2));
    }
    out.end(program);
}

// What the arguments ask for, where the first is the option.
fn wish_with_positions(env: &impl Env) -> Wish {
    if is_name(env, 2) {
        wish_of(env, 3, 1)
    } else {
        Wish::Wrong
    }
}

fn main(rt: HostRuntime) {
    let program = Program {
        rt: &rt,
        name: b"unpack",
    };
    if is_word(&rt, 1, b"--positions") {
        program.start(wish_with_positions(&rt), USAGE, run_with_positions);
    } else {
        program.start(wish_of(&rt, 1, usize::MAX), USAGE, run_each);
    }
}
