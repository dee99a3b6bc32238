// A planned block: one call of the turn function a turn, in the plan's order, and stage work nowhere else. Document 01, 'Plans'.
ghost use Rattle.std.specs.Prelude.{◌≡◌, true, replicate};
ghost use Rattle.turns.specs.Plan.{keeps_rule};
ghost use Rattle.array.specs.Buffers.{SameBuffers, changed_by, lent};
ghost use Rattle.array.specs.Stages.{stage_count};
ghost use Rattle.calls.specs.Fit.{Done, Fit, Starts};

use crate::starts::starts;
use admit::plan::MOST_STAGES;
use array::{Buffers, Sources};
use description::places::Place;
use description::records::read_array;
use stage::span::Span;
use stage::turn;

// The turns of a plan that keeps its rule; `reached` says how far each stage is: a list of numbers, of which the plan's rule speaks.
pub fn turns_in_order(
    sources: &Sources<'_>,
    buffers: &mut Buffers<'_>,
    scratch: &mut [f32],
    plan: &[u32],
    reached: &mut [usize],
    places: &[Place; MOST_STAGES],
    size: usize,
    n: usize,
)
    requires fit { Fit (lent sources.now buffers.old scratch.old) n size }
    requires plan_value { keeps_rule (stage_count sources.now.description.now) n plan.now ≡ true }
    requires reached_value { reached.old ≡ replicate (stage_count sources.now.description.now) 0 }
    requires starts { Starts sources.now.description.now places.now }
    ensures done { Done (lent sources.now buffers.old scratch.old) n (changed_by buffers.new scratch.new) }
    ensures same { SameBuffers buffers.old buffers.new }
{
    for pair in plan.chunks_exact(2) {
        let k = pair[0] as usize;
        let count = pair[1] as usize;
        let from = reached[k];
        let span = Span {
            size,
            n,
            from,
            count,
        };
        turn(sources, buffers, scratch, places[k], span, k);
        reached[k] = from + count;
    }
}

// The same with the stages' starts found first.
pub fn by_plan(
    sources: &Sources<'_>,
    buffers: &mut Buffers<'_>,
    scratch: &mut [f32],
    plan: &[u32],
    size: usize,
    n: usize,
)
    requires fit { Fit (lent sources.now buffers.old scratch.old) n size }
    requires plan_value { keeps_rule (stage_count sources.now.description.now) n plan.now ≡ true }
    ensures done { Done (lent sources.now buffers.old scratch.old) n (changed_by buffers.new scratch.new) }
    ensures same { SameBuffers buffers.old buffers.new }
{
    let a = read_array(sources.description);
    let stages = a.layers + 2;
    let places = starts(sources.description);
    let mut reached = [0; MOST_STAGES];
    turns_in_order(
        sources,
        buffers,
        scratch,
        plan,
        &mut reached[0..stages],
        &places,
        size,
        n,
    );
}
