// The order's file.
use text::program::Program;
use text::show::print_rows;
use text::streams::{MOST_NAME, Output};

// Writes the order of the triangles to the file that an argument names, or says why it cannot be
// written: whether the pack may follow. Without a name there is nothing to write. (A flag and no
// Result: why it failed has been said then.)
pub fn write_order(program: Program<'_>, order: &[u16], named: Option<usize>) -> bool {
    let Some(i) = named else {
        return true;
    };
    let mut name = [0u8; MOST_NAME];
    let Some((file, n)) = program.open_output(i, &mut name) else {
        return false;
    };
    let mut out = Output::to(file);
    print_rows(&mut out, order, 1);
    out.close(program, &name[..n])
}
