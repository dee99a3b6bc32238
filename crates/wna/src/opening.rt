// Description and weights, taken in from the bytes that follow the header; and the program's room. Each lends what was read, which is shorter than
// asked where the file ends. Document 01, 'The program'.
ghost use Rattle.std.specs.Prelude.{◌≡◌, ◌≤◌};
ghost use Rattle.refusal.specs.Number.{number_of};
ghost use Rattle.wna.specs.Opening.{Described, Weighed, no_room};

use crate::words::{unpack_floats, unpack_numbers};
use description::answers::Sizes;
use description::check::check;
use refusal::Refusal;

// The most weights, and the most numbers of history, that the program has room for.
pub const MOST_HELD: usize = 16384;

// The most numbers of a planar buffer.
pub const MOST_PLANAR: usize = 1024;

// Whether the program's buffers are too small.
fn no_room(s: Sizes, block: usize) -> bool
    requires { (s.widest ≤ 64) × (block ≤ 1024) }
    ensures { result ≡ no_room s block }
{
    MOST_HELD < s.weights || MOST_HELD < s.histories || MOST_PLANAR < s.widest * block
}

// The description's numbers, checked; the block is the header's.
pub fn take_description(numbers: &mut [u32], bytes: &[u8], block: usize) -> Result<Sizes, Refusal>
    requires { block ≤ 1024 }
    ensures { Described numbers.old bytes.now block result numbers.new }
{
    if bytes.len() < 4 * numbers.len() {
        return Err(Refusal::File);
    }
    unpack_numbers(numbers, bytes);
    let sizes = check(numbers)?;
    if no_room(sizes, block) {
        return Err(Refusal::Room);
    }
    Ok(sizes)
}

// The weights, unless they are short.
pub fn take_weights(weights: &mut [f32], bytes: &[u8]) -> Result<(), Refusal>
    ensures { Weighed weights.old bytes.now (number_of result) weights.new }
{
    if bytes.len() < 4 * weights.len() {
        return Err(Refusal::File);
    }
    unpack_floats(weights, bytes);
    Ok(())
}
