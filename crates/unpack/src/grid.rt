// The positions' file.
use std::io::Write;
use text::program::Program;
use text::show::end_of;
use text::streams::{MOST_NAME, Output};
use wire::fields::{before_note, parts_of, word_at};

// Writes the positions that bytes stand for, three to a line.
fn print_positions<W: Write>(out: &mut Output<W>, field: &[u8]) {
    for i in 0..field.len() / 2 {
        let position = word_at(field, 2 * i).cast_signed();
        write!(out, "{position}{}", end_of(i, 3));
    }
}

// The contents of the positions' field of a pack, if it has one.
fn positions_of(pack: &[u8]) -> Option<&[u8]> {
    parts_of(before_note(pack))?.positions
}

// Writes the positions of a pack to the file that an argument names: whether it did. Where it did
// not, it says why. (A flag and no Result: why it failed has been said then.)
pub fn write_positions(program: Program<'_>, pack: &[u8], named: usize) -> bool {
    let Some(positions) = positions_of(pack) else {
        program.say("the pack has no positions");
        return false;
    };
    let mut name = [0u8; MOST_NAME];
    let Some((file, n)) = program.open_output(named, &mut name) else {
        return false;
    };
    let mut out = Output::to(file);
    print_positions(&mut out, positions);
    out.close(program, &name[..n])
}
