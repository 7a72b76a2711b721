// The packs that a program reads.
ghost use Rattle.text.specs.Reads.{Fills};

use crate::program::Program;
use std::io;

// The longest input that is taken for a pack. No pack has over 54,356 bytes: 14 before the
// operations; 20 bits at most for each of 8,192 triangles and 3 for each of their 24,576 edges;
// 24,579 bytes of positions; 67 of a note.
pub const MOST_BYTES: usize = 65536;

// What an input is read into has one byte more, to tell a longer one.
pub const BUFFER: usize = MOST_BYTES + 1;

impl Program<'_> {
    // Reads the pack that argument i names. An input that is too long counts as an empty one: 12
    // refuses both.
    pub fn read_pack(self, i: usize, buffer: &mut [u8]) -> io::Result<usize>
        ensures { Fills result 0 buffer.new }
    {
        match self.read_input(i, buffer) {
            Ok(n) if MOST_BYTES < n => Ok(0),
            read => read,
        }
    }
}
