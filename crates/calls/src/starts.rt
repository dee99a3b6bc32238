// Where the stages' numbers start, once for all turns of a planned block. Document 01, 'Description' (order of convolutions) and 'Plans'.
ghost use Rattle.std.specs.Prelude.{◌≡◌, suc, ◌<◌};
ghost use Rattle.description.specs.Records.{array_of};
ghost use Rattle.description.specs.Refusals.{refusal_of};
ghost use Rattle.array.specs.Stages.{stage_count};
ghost use Rattle.array.specs.Turn.{start_of};
ghost use Rattle.calls.specs.Fit.{Starts};

use admit::plan::MOST_STAGES;
use description::parts::{head_rechannel, rechannel};
use description::places::Place;
use description::records::{ArrayRecord, layer_record, read_array};
use layer::slots::slots_from;
use stage::kind::{Stage, stage_at};

// Where the numbers after those of stage k start.
fn after_stage(description: &[u32], a: ArrayRecord, start: Place, k: usize) -> Place
    requires description_value { refusal_of description.now ≡ 0 }
    requires a_value { (a ≡ array_of description.now) × (k < stage_count description.now) × (start ≡ start_of description.now k) }
    ensures { result ≡ start_of description.now (suc k) }
{
    match stage_at(k, a.layers) {
        Stage::Rechannel => start.past(Some(rechannel(a))),
        Stage::Layer(l) => slots_from(a, layer_record(description, l), start).end,
        Stage::HeadRechannel => start.past(Some(head_rechannel(a))),
    }
}

// Those of all stages, with room for as many as there can be.
pub fn starts(description: &[u32]) -> [Place; MOST_STAGES]
    requires { refusal_of description.now ≡ 0 }
    ensures { Starts description.now result }
{
    let a = read_array(description);
    let stages = a.layers + 2;
    let mut start = Place {
        weights: 0,
        histories: 0,
        positions: 0,
    };
    let mut places = [start; MOST_STAGES];
    for k in 0..stages {
        places[k] = start;
        start = after_stage(description, a, start, k);
    }
    places
}
