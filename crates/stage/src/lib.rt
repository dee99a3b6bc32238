// The turn function: a stage's next columns. Carries array.rs. Document 01, 'Plans' and 'The recurrence' (Array).
#![tactic(auto)]

ghost use Rattle.std.specs.Prelude.{◌≡◌, suc};
ghost use Rattle.array.specs.Buffers.{SameBuffers};
ghost use Rattle.array.specs.Turn.{start_of};
ghost use Rattle.stage.specs.Turns.{BlocksFit, Placed, TurnFits, TurnTaken};

pub mod copies;
pub mod first;
pub mod kind;
pub mod last;
pub mod middle;
pub mod span;

use crate::first::rechannel_turn;
use crate::kind::{Stage, stage_at};
use crate::last::head_turn;
use crate::middle::layer_turn;
use crate::span::Span;
use array::{Buffers, Sources};
use description::places::Place;
use description::records::read_array;

// Stage k takes the span's columns. It answers where the next stage's numbers start.
pub fn turn(
    sources: &Sources<'_>,
    buffers: &mut Buffers<'_>,
    scratch: &mut [f32],
    start: Place,
    span: Span,
    k: usize,
) -> Place
    requires stage_fits { TurnFits sources.now buffers.old scratch.old span k start }
    requires blocks_fit { BlocksFit sources.now buffers.old span.n }
    ensures value { result ≡ start_of sources.now.description.now (suc k) }
    ensures turn_done { TurnTaken sources.now buffers.old scratch.old buffers.new scratch.new span k }
    ensures placed { Placed sources.now.description.now buffers.new.positions.now }
    ensures same { SameBuffers buffers.old buffers.new }
{
    let a = read_array(sources.description);
    match stage_at(k, a.layers) {
        Stage::Rechannel => rechannel_turn(sources, buffers, scratch, start, span),
        Stage::Layer(l) => layer_turn(sources, buffers, scratch, start, span, l),
        Stage::HeadRechannel => head_turn(sources, buffers, scratch, start, span),
    }
}
