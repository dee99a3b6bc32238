// The calls: a single column, a block, a planned block. Carries process_sample and process_block of array.rs, with checks in front.
// Document 01, 'Refusal numbers' 1 to 9, 'Plans' and 'What the contracts have to say'.
#![tactic(auto)]

ghost use Rattle.array.specs.Buffers.{SameBuffers, left, lent};
ghost use Rattle.array.specs.Refusals.{block_refusal, column_refusal, planned_refusal};
ghost use Rattle.array.specs.Calls.{Answers};
ghost use Rattle.refusal.specs.Number.{number_of};

pub mod plans;
pub mod stages;
pub mod starts;

use crate::plans::by_plan;
use crate::stages::stages_in_order;
use admit::lengths::REGIONS;
use admit::plan::keeps_rule;
use array::{Buffers, Sources};
use description::records::read_array;
use refusal::Refusal;

// A block of n columns, or the refusal 1 to 8. Scratch is cut to its sixteen regions, so that a longer one is no different.
pub fn block(
    sources: &Sources<'_>,
    buffers: &mut Buffers<'_>,
    scratch: &mut [f32],
    n: usize,
) -> Result<(), Refusal>
    ensures answers { Answers (lent sources.now buffers.old scratch.old) n
        (block_refusal (lent sources.now buffers.old scratch.old) n)
        (left (number_of result) buffers.new scratch.new) }
    ensures same { SameBuffers buffers.old buffers.new }
{
    let shared = buffers.shared();
    let sizes = admit::call(sources, &shared, scratch, n)?;
    if n == 0 {
        return Ok(());
    }
    let size = sizes.widest * n;
    let used = REGIONS * size;
    stages_in_order(sources, buffers, &mut scratch[0..used], size, n);
    Ok(())
}

// A single column, or the refusal 1 to 5, 7 or 8. It is a block of one, for which 6 is never given.
pub fn column(
    sources: &Sources<'_>,
    buffers: &mut Buffers<'_>,
    scratch: &mut [f32],
) -> Result<(), Refusal>
    ensures answers { Answers (lent sources.now buffers.old scratch.old) 1
        (column_refusal (lent sources.now buffers.old scratch.old))
        (left (number_of result) buffers.new scratch.new) }
    ensures same { SameBuffers buffers.old buffers.new }
{
    block(sources, buffers, scratch, 1)
}

// A planned block of n columns, or the refusal 1 to 9.
pub fn planned(
    sources: &Sources<'_>,
    buffers: &mut Buffers<'_>,
    scratch: &mut [f32],
    n: usize,
    plan: &[u32],
) -> Result<(), Refusal>
    ensures answers { Answers (lent sources.now buffers.old scratch.old) n
        (planned_refusal (lent sources.now buffers.old scratch.old) n plan.now)
        (left (number_of result) buffers.new scratch.new) }
    ensures same { SameBuffers buffers.old buffers.new }
{
    let shared = buffers.shared();
    let sizes = admit::call(sources, &shared, scratch, n)?;
    let a = read_array(sources.description);
    if !keeps_rule(plan, a.layers + 2, n) {
        return Err(Refusal::Plan);
    }
    if n == 0 {
        return Ok(());
    }
    let size = sizes.widest * n;
    let used = REGIONS * size;
    by_plan(sources, buffers, &mut scratch[0..used], plan, size, n);
    Ok(())
}
