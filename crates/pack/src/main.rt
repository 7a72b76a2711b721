#![tactic(auto)]

// Reads a model as text, from standard input or from the file that an argument names: V, then the
// vertex numbers, decimal, with white space between. It writes the model's pack to standard output,
// or a line: `refused` and the number. A text that is no model, what cannot be read, and a text
// that is too long, gets a line on standard error and nothing else; a write that fails gets such a
// line too. With `--order FILE` it writes the order of a packed model to that file: for each triangle
// built, a line with its number in the list, counted from 0. With `--positions FILE` it packs the
// positions in that file too, a text of signed numbers: x, y and z of each vertex, in grid steps.
// With `--note FILE` it packs the bytes of that file too, as they are.
mod grid; // the positions that numbers stand for
mod note; // the note's file
mod options; // the arguments
mod order; // the order's file
mod packing; // packing with what is given besides

ghost use Rattle.std.specs.Prelude.{◌≤◌, length, IfOk};

use grid::{POSITIONS, put_positions};
use note::{NOTE_BUFFER, read_note};
use options::{Options, USAGE, read_options, wish};
use order::write_order;
use packing::{Extras, Rooms, pack_list};
use rules::{TRIANGLES, VERTICES};
use std::io::Stdout;
use text::numbers::{Form, MODEL, NUMBERS, PART, Sign, TextError};
use text::packs::MOST_BYTES;
use text::program::Program;
use text::show::{print_part, print_refusal};
use text::streams::Output;

// The positions' text.
const POSITIONS_FORM: Form = Form {
    sign: Sign::Signed,
    expected: "no positions: three numbers for each vertex are expected, decimal, with white space between",
};

// Packs a list with what is given besides, and writes first the order, if a file is named for it,
// and then the pack; or the refusal. Where the order cannot be written, neither is the pack.
fn pack(
    program: Program<'_>,
    out: &mut Output<Stdout>,
    v: u16,
    list: &[u16],
    extras: Extras<'_>,
    order: Option<usize>,
) {
    let mut rooms = Rooms {
        numbering: [0; VERTICES],
        buffer: [0; MOST_BYTES],
        order: [0; TRIANGLES],
    };
    match pack_list(usize::from(v), list, extras, &mut rooms) {
        Ok(n) => {
            if let Some(built) = rooms.order.get(..list.len() / 3) {
                if write_order(program, built, order) {
                    // (`as`: std has no `From` of 32 bits for an index.)
                    print_part(out, &rooms.buffer, 0, n as usize);
                }
            }
        }
        Err(refusal) => print_refusal(out, refusal.number()),
    }
}

// Reads a model and packs it, with what is given besides.
fn pack_model(
    program: Program<'_>,
    out: &mut Output<Stdout>,
    part: &mut [u8],
    given: Options,
    extras: Extras<'_>,
) {
    let mut numbers = [0u16; NUMBERS];
    let Ok(n) = program.read_input_numbers(given.model, MODEL, part, &mut numbers) else {
        return;
    };
    match &numbers[..n] {
        [v, list @ ..] => pack(program, out, *v, list, extras, given.order),
        [] => program.say(MODEL.expected),
    }
}

// Reads the positions in the file that an argument names, as many as fit. Without a name there is
// nothing to read.
fn read_positions(
    program: Program<'_>,
    named: Option<usize>,
    part: &mut [u8],
    positions: &mut [i16],
) -> Result<usize, TextError>
    ensures { IfOk result (λ n. n ≤ length positions.new) }
{
    let Some(i) = named else {
        return Ok(0);
    };
    let mut numbers = [0u16; POSITIONS];
    let n = program.read_input_numbers(i, POSITIONS_FORM, part, &mut numbers)?;
    Ok(put_positions(&numbers[..n], positions))
}

// Reads the positions, if a file is named for them, then a model, and packs it, with a note if it
// is given.
fn run_noted(program: Program<'_>, out: &mut Output<Stdout>, given: Options, note: Option<&[u8]>) {
    let mut part = [0u8; PART];
    let mut positions = [0i16; POSITIONS];
    if let Ok(n) = read_positions(program, given.positions, &mut part, &mut positions) {
        let positions = given.positions.map(|_| &positions[..n]);
        let extras = Extras { positions, note };
        pack_model(program, out, &mut part, given, extras);
    }
}

// Reads the note, if a file is named for it, then the positions and a model, and packs it.
fn run(program: Program<'_>, given: Options) {
    let mut note = [0u8; NOTE_BUFFER];
    let mut out = Output::to(program.rt.stdout());
    if let Ok(n) = read_note(program, given.note, &mut note) {
        run_noted(program, &mut out, given, given.note.map(|_| &note[..n]));
    }
    out.end(program);
}

fn main(rt: HostRuntime) {
    let program = Program {
        rt: &rt,
        name: b"pack",
    };
    let given = read_options(&rt);
    program.start(wish(&rt, given), USAGE, |program| run(program, given));
}
