// Stages 1 to L, the layers. Carries the loop over layers of array.rs. Document 01, 'Plans' and 'The recurrence' (Array).
ghost use Rattle.std.specs.Prelude.{◌≡◌, suc, ◌<◌, ◌*◌, length};
ghost use Rattle.description.specs.Numbers.{layer_count};
ghost use Rattle.description.specs.Records.{array_of};
ghost use Rattle.array.specs.Buffers.{SameBuffers};
ghost use Rattle.array.specs.Turn.{start_of};
ghost use Rattle.stage.specs.Turns.{Placed, TurnFits, TurnTaken};

use crate::copies::{bring, hand_on};
use crate::span::Span;
use array::{Buffers, Sources};
use description::places::Place;
use description::records::{layer_record, read_array};
use layer::Layer;
use layer::slots::slots_from;
use slot::Bench;

// The span's columns through layer l, from regions 0 and 1 and back to them. It answers where the next stage's numbers start.
pub fn layer_turn(
    sources: &Sources<'_>,
    buffers: &mut Buffers<'_>,
    scratch: &mut [f32],
    start: Place,
    span: Span,
    l: usize,
) -> Place
    requires stage_fits { TurnFits sources.now buffers.old scratch.old span (suc l) start }
    requires l_bound { l < layer_count sources.now.description.now }
    requires condition_len { length sources.now.condition.now ≡ (array_of sources.now.description.now).condition * span.n }
    ensures value { result ≡ start_of sources.now.description.now (suc (suc l)) }
    ensures turn_done { TurnTaken sources.now buffers.old scratch.old buffers.new scratch.new span (suc l) }
    ensures placed { Placed sources.now.description.now buffers.new.positions.now }
    ensures outputs_kept { (buffers.new.head_out.now ≡ buffers.old.head_out.now) × (buffers.new.array_out.now ≡ buffers.old.array_out.now) }
    ensures same { SameBuffers buffers.old buffers.new }
{
    let a = read_array(sources.description);
    let r = layer_record(sources.description, l);
    let layer = Layer {
        array: &a,
        own: &r,
        slots: slots_from(a, r, start),
        weights: sources.weights,
        size: span.size,
        columns: span.count,
    };
    bring(scratch, sources.condition, a, span);
    let mut bench = Bench {
        work: &mut *scratch,
        histories: &mut *buffers.histories,
        positions: &mut *buffers.positions,
    };
    let result = layer.play(&mut bench);
    hand_on(scratch, a, span, result);
    layer.slots.end
}
