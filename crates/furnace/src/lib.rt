// The furnace's own reader, for C and Rust, on the workshop's box and on the furnace's part: a library of one function. Its contract cites
// specs/Reading.antt.
#![tactic(auto)]

ghost use Rattle.furnace.specs.Reading.{Reads};

use cells::BYTES;
use melting::melt_on;

// Reads any bytes as a pack: 0, and six times the volume in `six`; or the refusal, 12, 13, 15 to 17, 19 or 23 to 26, and `six` as it was.
// The memory may hold anything before, and what it holds afterwards is free.
#[unsafe(no_mangle)]
pub extern "C" fn furnace_read(pack: &[u8], memory: &mut [u8; BYTES], six: &mut i64) -> u8
    ensures { Reads pack.now six.old result six.new memory.new }
{
    match melt_on(pack, memory) {
        Ok(z) => {
            *six = z;
            0
        }
        Err(e) => e.number(),
    }
}
