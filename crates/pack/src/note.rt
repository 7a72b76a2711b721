// The note's file.
ghost use Rattle.text.specs.Reads.{Fills};

use rules::MOST_NOTE;
use std::io;
use text::program::Program;

// The most bytes of a note, and one more to tell a longer file.
pub const NOTE_BUFFER: usize = MOST_NOTE + 1;

// Reads the file that an argument names, its bytes as they are, as many as fit, or says why it
// cannot be read. Without a name there is nothing to read.
pub fn read_note(program: Program<'_>, named: Option<usize>, note: &mut [u8]) -> io::Result<usize>
    ensures { Fills result 0 note.new }
{
    match named {
        Some(i) => program.read_input(i, note),
        None => Ok(0),
    }
}
