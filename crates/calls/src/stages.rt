// A block: one turn a stage, in the stages' order. Carries process_block of array.rs. Document 01, 'Plans' and 'The recurrence' (Array).
ghost use Rattle.array.specs.Buffers.{SameBuffers, changed_by, lent};
ghost use Rattle.calls.specs.Fit.{Done, Fit};

use array::{Buffers, Sources};
use description::places::Place;
use description::records::read_array;
use stage::span::Span;
use stage::turn;

pub fn stages_in_order(
    sources: &Sources<'_>,
    buffers: &mut Buffers<'_>,
    scratch: &mut [f32],
    size: usize,
    n: usize,
)
    requires { Fit (lent sources.now buffers.old scratch.old) n size }
    ensures done { Done (lent sources.now buffers.old scratch.old) n (changed_by buffers.new scratch.new) }
    ensures same { SameBuffers buffers.old buffers.new }
{
    let a = read_array(sources.description);
    let stages = a.layers + 2;
    let span = Span {
        size,
        n,
        from: 0,
        count: n,
    };
    let mut start = Place {
        weights: 0,
        histories: 0,
        positions: 0,
    };
    for k in 0..stages {
        start = turn(sources, buffers, scratch, start, span, k);
    }
}
