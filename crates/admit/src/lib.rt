// The check of a call: it touches nothing, and hands back the refusal or the sizes. Carries the asserts of conv.rs and
// film.rs on lengths and on the size of a block. Document 01, 'Refusal numbers' 1 to 8; the plan's 9 is in plan.rt.
#![tactic(auto)]

pub mod lengths;
pub mod places;
pub mod plan;

ghost use Rattle.array.specs.Buffers.{lent_shared};
ghost use Rattle.admit.specs.Admits.{Admits};

use array::{Shared, Sources};
use description::answers::Sizes;
use description::check::check;
use description::records::read_array;
use lengths::{MOST_COLUMNS, differ};
use places::places_beyond;
use refusal::Refusal;

// A block of n columns: 1 to 8. A single column is a block of one, for 1 is no more than 1024. No width is multiplied by n before 6 is tested.
pub fn call(
    sources: &Sources<'_>,
    buffers: &Shared<'_>,
    scratch: &[f32],
    n: usize,
) -> Result<Sizes, Refusal>
    ensures { Admits (lent_shared sources.now buffers.now scratch.now) n result }
{
    let sizes = check(sources.description)?;
    if MOST_COLUMNS < n {
        return Err(Refusal::BlockSize);
    }
    let a = read_array(sources.description);
    if differ(sources, buffers, scratch, a, sizes, n) {
        return Err(Refusal::BufferLength);
    }
    if places_beyond(sources.description, a, buffers.positions) {
        return Err(Refusal::Position);
    }
    Ok(sizes)
}
