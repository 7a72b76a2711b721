// What the programs print.
ghost use Rattle.std.specs.Prelude.{◌<◌};

use crate::streams::Output;
use rules::Model;
use std::io::Write;

// Prints a refusal by its number.
pub fn print_refusal<W: Write>(out: &mut Output<W>, n: u8) {
    writeln!(out, "refused {n}");
}

// Writes n bytes from byte `from` on, as they are; none if there are not so many.
// It takes two numbers and no slice: so no caller has to show that there are so many bytes.
pub fn print_part<W: Write>(out: &mut Output<W>, bytes: &[u8], from: usize, n: usize) {
    if let Some(part) = bytes.get(from..).and_then(|rest| rest.get(..n)) {
        out.bytes(part);
    }
}

// What stands after number i, where there are so many to a line.
pub fn end_of(i: usize, row: usize) -> char
    requires { 0 < row }
{
    if i % row == row - 1 { '\n' } else { ' ' }
}

// Writes numbers, so many to a line.
pub fn print_rows<W: Write>(out: &mut Output<W>, numbers: &[u16], row: usize)
    requires { 0 < row }
{
    for (i, n) in numbers.iter().enumerate() {
        write!(out, "{n}{}", end_of(i, row));
    }
}

// Prints a model and its triangles.
pub fn print_model<W: Write>(out: &mut Output<W>, m: Model, triangles: &[u16]) {
    let Some(built) = triangles.get(..3 * usize::from(m.triangles)) else {
        return;
    };
    let t = m.totals;
    writeln!(
        out,
        "model {} {} {} {} {}",
        m.vertices, m.triangles, t.edges, t.rims, t.unions
    );
    print_rows(out, built, 3);
}
