// Whether a position is not below the ring length of its part. Document 01, 'Refusal numbers' 8. Every call pays for it, a single column too: one pass,
// in which each layer's record is read once.
ghost use Rattle.std.specs.Prelude.{◌≡◌, ◌∷◌, [], ◌+◌, ◌≤◌, length};
ghost use Rattle.description.specs.Parts.{parts_of, slots_of};
ghost use Rattle.description.specs.Ranges.{ArrayRanges, Fits, LayerRanges};
ghost use Rattle.description.specs.Records.{array_of};
ghost use Rattle.description.specs.Refusals.{refusal_of};
ghost use Rattle.description.specs.Sizes.{positions_of, total};
ghost use Rattle.array.specs.Refusals.{beyond};
ghost use Rattle.admit.specs.Passes.{passed};

use description::numbers::SLOTS;
use description::parts::{Part, head_rechannel, rechannel, slot};
use description::records::{ArrayRecord, LayerRecord, layer_record};

// How far a pass over the parts has come: the place of the next position, and whether one before it lies beyond its ring.
#[derive(Clone, Copy)]
pub struct Pass {
    pub at: usize,
    pub beyond: bool,
}

impl Pass {
    // One part more.
    fn part(self, positions: &[u32], part: Part) -> Pass
        requires fits { Fits part }
        requires part_in_bounds { self.at + positions_of part ≤ length positions.now }
        ensures { result ≡ passed positions.now self (part ∷ []) }
    {
        match part {
            // anew and not `self`: of a value handed on whole the compiler moves the padding too, in pieces that the next load has to wait for
            None => Pass {
                at: self.at,
                beyond: self.beyond,
            },
            Some(sh) => {
                let at = self.at;
                let place = positions[at] as usize;
                let beyond = sh.ring_length() <= place;
                Pass {
                    at: at + 1,
                    beyond: self.beyond | beyond,
                }
            }
        }
    }

    // The slots of a layer.
    fn layer(self, positions: &[u32], a: ArrayRecord, r: LayerRecord) -> Pass
        requires array_ranges { ArrayRanges a }
        requires layer_ranges { LayerRanges r }
        requires r_in_bounds { self.at + total positions_of (slots_of a r) ≤ length positions.now }
        ensures { result ≡ passed positions.now self (slots_of a r) }
    {
        let mut pass = self;
        for k in 0..SLOTS {
            let part = slot(a, r, k);
            pass = pass.part(positions, part);
        }
        pass
    }
}

// The positions of a description that is not refused, a being its array's record.
pub fn places_beyond(description: &[u32], a: ArrayRecord, positions: &[u32]) -> bool
    requires description_value { refusal_of description.now ≡ 0 }
    requires a_value { a ≡ array_of description.now }
    requires positions_len { length positions.now ≡ total positions_of (parts_of description.now) }
    ensures { result ≡ beyond (parts_of description.now) positions.now }
{
    let layers = a.layers;
    let first = Pass {
        at: 0,
        beyond: false,
    };
    let mut pass = first.part(positions, Some(rechannel(a)));
    for l in 0..layers {
        let r = layer_record(description, l);
        pass = pass.layer(positions, a, r);
    }
    let last = pass.part(positions, Some(head_rechannel(a)));
    last.beyond
}
