// What the library `furnace` exports for C and Rust, as a static library: each function is its function of the same name, under the same
// clauses. A crate is a library or a static library, not both: C links this one, Rust and Rattle call the other.
#![tactic(auto)]

ghost use Rattle.furnace.specs.Reading.{Reads};

use cells::BYTES;

// Reads any bytes as a pack: 0, and six times the volume in `six`; or the refusal, 12, 13, 15 to 17, 19 or 23 to 26, and `six` as it was.
// The memory may hold anything before, and what it holds afterwards is free.
#[unsafe(no_mangle)]
pub extern "C" fn furnace_read(pack: &[u8], memory: &mut [u8; BYTES], six: &mut i64) -> u8
    ensures { Reads pack.now six.old result six.new memory.new }
{
    furnace::furnace_read(pack, memory, six)
}
