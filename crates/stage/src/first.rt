// Stage 0, the rechannel. Carries the first step of array.rs. Document 01, 'Plans' and 'The recurrence' (Array): the accumulator starts at the incoming
// head.
ghost use Rattle.std.specs.Prelude.{◌≡◌, suc, ◌*◌, length};
ghost use Rattle.description.specs.Records.{array_of};
ghost use Rattle.array.specs.Buffers.{SameBuffers};
ghost use Rattle.array.specs.Turn.{start_of};
ghost use Rattle.stage.specs.Turns.{Placed, TurnFits, TurnTaken};

use crate::span::Span;
use array::{Buffers, Sources};
use description::parts::rechannel;
use description::places::Place;
use description::records::read_array;
use slot::Bench;

// The span's columns from the input to region 0, and of the incoming head to region 1. It answers where the next stage's numbers start.
pub fn rechannel_turn(
    sources: &Sources<'_>,
    buffers: &mut Buffers<'_>,
    scratch: &mut [f32],
    start: Place,
    span: Span,
) -> Place
    requires stage_fits { TurnFits sources.now buffers.old scratch.old span 0 start }
    requires input_len { (length sources.now.input.now ≡ (array_of sources.now.description.now).input * span.n)
        × (length sources.now.head_in.now ≡ (array_of sources.now.description.now).head_in * span.n) }
    ensures value { result ≡ start_of sources.now.description.now (suc 0) }
    ensures turn_done { TurnTaken sources.now buffers.old scratch.old buffers.new scratch.new span 0 }
    ensures placed { Placed sources.now.description.now buffers.new.positions.now }
    ensures outputs_kept { (buffers.new.head_out.now ≡ buffers.old.head_out.now) × (buffers.new.array_out.now ≡ buffers.old.array_out.now) }
    ensures same { SameBuffers buffers.old buffers.new }
{
    let a = read_array(sources.description);
    let sh = rechannel(a);
    let size = span.size;
    let n = span.n;
    let from = span.from;
    let count = span.count;
    let channels = a.channels;
    let width = a.head_in;
    let input = sources.input;
    let head_in = sources.head_in;
    let x = 2 * size;
    let out = 3 * size;
    let rows = 4 * size;
    carry::columns(scratch, input, x, count, from, n, a.input, count);
    let mut bench = Bench {
        work: &mut *scratch,
        histories: &mut *buffers.histories,
        positions: &mut *buffers.positions,
    };
    bench.play(sources.weights, x, out, rows, sh, start, count);
    carry::columns_within(scratch, from, n, out, count, channels, count);
    carry::columns(scratch, head_in, size + from, n, from, n, width, count);
    start.past(Some(sh))
}
