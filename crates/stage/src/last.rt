// Stage L + 1, the head rechannel. Carries the last step of array.rs. Document 01, 'Plans' and 'The recurrence' (Array).
ghost use Rattle.std.specs.Prelude.{◌≡◌, suc, ◌*◌, length};
ghost use Rattle.description.specs.Numbers.{layer_count};
ghost use Rattle.description.specs.Records.{array_of};
ghost use Rattle.array.specs.Buffers.{SameBuffers};
ghost use Rattle.array.specs.Turn.{start_of};
ghost use Rattle.stage.specs.Turns.{Placed, TurnFits, TurnTaken};

use crate::span::Span;
use array::{Buffers, Sources};
use description::parts::head_rechannel;
use description::places::Place;
use description::records::read_array;
use slot::Bench;

// The span's columns from region 1 to the head output, and from region 0 to the array output. It answers where the numbers end.
pub fn head_turn(
    sources: &Sources<'_>,
    buffers: &mut Buffers<'_>,
    scratch: &mut [f32],
    start: Place,
    span: Span,
) -> Place
    requires stage_fits { TurnFits sources.now buffers.old scratch.old span (suc (layer_count sources.now.description.now)) start }
    requires head_out_len { (length buffers.old.head_out.now ≡ (array_of sources.now.description.now).head_size * span.n)
        × (length buffers.old.array_out.now ≡ (array_of sources.now.description.now).channels * span.n) }
    ensures value { result ≡ start_of sources.now.description.now (suc (suc (layer_count sources.now.description.now))) }
    ensures turn_done { TurnTaken sources.now buffers.old scratch.old buffers.new scratch.new span (suc (layer_count sources.now.description.now)) }
    ensures placed { Placed sources.now.description.now buffers.new.positions.now }
    ensures same { SameBuffers buffers.old buffers.new }
{
    let a = read_array(sources.description);
    let sh = head_rechannel(a);
    let size = span.size;
    let n = span.n;
    let from = span.from;
    let count = span.count;
    let ins = a.head_in;
    let outs = a.head_size;
    let wide = a.channels;
    let x = 3 * size;
    let out = 4 * size;
    let rows = 5 * size;
    carry::columns_within(scratch, x, count, size + from, n, ins, count);
    let mut bench = Bench {
        work: &mut *scratch,
        histories: &mut *buffers.histories,
        positions: &mut *buffers.positions,
    };
    bench.play(sources.weights, x, out, rows, sh, start, count);
    carry::columns(buffers.head_out, scratch, from, n, out, count, outs, count);
    carry::columns(buffers.array_out, scratch, from, n, from, n, wide, count);
    start.past(Some(sh))
}
