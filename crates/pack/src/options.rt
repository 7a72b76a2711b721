// The arguments: up to three options, each with the name of a file, then the name of the model's
// file.
ghost use Rattle.std.specs.Prelude.{◌≤◌};

use std::env::Env;
use text::arguments::{Wish, is_name, is_word, wish_of};

// How the program is used.
pub const USAGE: &str = "\
usage: pack [--order FILE] [--positions FILE] [--note FILE] [MODEL] > model.pack
Packs a model of the file MODEL or of standard input (-): V, then the vertex numbers of its triangles, decimal.
Writes the pack, or a line: refused and the number of the refusal, which the program explain explains.
  --order FILE      writes for each triangle, as built, its number in the list, counted from 0
  --positions FILE  packs the positions too: x, y and z of each vertex, from -2048 to 2047
  --note FILE       packs the bytes of the file too, 1 to 64
";

// Which arguments name the files of the order, the positions and the note, where they are given,
// and which names the model's, if there is one.
#[derive(Clone, Copy, Debug, PartialEq, Eq)]
pub struct Options {
    pub order: Option<usize>,
    pub positions: Option<usize>,
    pub note: Option<usize>,
    pub model: usize,
}

// The argument after this option, where it is given. A name follows each option, so that the second
// is argument 3 and the third argument 5.
fn name_of(env: &impl Env, option: &[u8]) -> Option<usize> {
    [2, 4, 6]
        .into_iter()
        .find(|name| is_word(env, name - 1, option))
}

// How many arguments an option takes up, with its name.
fn words(name: Option<usize>) -> usize
    ensures { result ≤ 2 }
{
    if name.is_some() { 2 } else { 0 }
}

// The options that are given.
pub fn read_options(env: &impl Env) -> Options {
    let order = name_of(env, b"--order");
    let positions = name_of(env, b"--positions");
    let note = name_of(env, b"--note");
    Options {
        order,
        positions,
        note,
        model: 1 + words(order) + words(positions) + words(note),
    }
}

// What the arguments ask for. Each option that is given has a name.
pub fn wish(env: &impl Env, o: Options) -> Wish {
    let is_named = |name: Option<usize>| name.is_none_or(|i| is_name(env, i));
    if is_named(o.order) && is_named(o.positions) && is_named(o.note) {
        wish_of(env, o.model, 1)
    } else {
        Wish::Wrong
    }
}
