// What one pass over a description adds up: the place past the parts so far, W and the memory depth, and whether refusal 3 or 4 is due.
// Document 01, 'Description' (sizes) and 'Refusal numbers' 3 to 5.
ghost use Rattle.std.specs.Prelude.{◌≡◌, max};
ghost use Rattle.description.specs.Parts.{slots_of};
ghost use Rattle.description.specs.Ranges.{ArrayRanges, LayerRanges, Low};
ghost use Rattle.description.specs.Refusals.{unmatched_of};
ghost use Rattle.description.specs.Sizes.{array_widths, largest, layer_widths};
ghost use Rattle.description.specs.Tally.{LowTally, answer_of, count_all, start_of, with_layer};

use crate::answers::Sizes;
use crate::numbers::{MOST, SLOTS};
use crate::parts::{doubled, head_rechannel, rechannel, slot, uneven};
use crate::places::Place;
use crate::records::{ArrayRecord, LayerRecord};
use refusal::Refusal;

// The place past some parts, and whether one of them is uneven.
#[derive(Clone, Copy)]
pub struct Counted {
    pub place: Place,
    pub uneven: bool,
}

// widest is W and depth the memory depth so far; unmatched says that refusal 4 is due.
#[derive(Clone, Copy)]
pub struct Tally {
    pub counted: Counted,
    pub unmatched: bool,
    pub widest: usize,
    pub depth: usize,
}

fn array_widest(a: ArrayRecord) -> usize
    ensures { result ≡ largest (array_widths a) }
{
    let heads = a.head_in.max(a.head_size);
    a.input.max(a.condition.max(a.channels.max(heads)))
}

fn layer_widest(r: LayerRecord) -> usize
    requires { LayerRanges r }
    ensures { result ≡ largest (layer_widths r) }
{
    r.bottleneck.max(doubled(r).max(r.head1x1_width))
}

// Refusal 4 at one layer.
fn unmatched(a: ArrayRecord, r: LayerRecord) -> bool
    ensures { result ≡ unmatched_of a r }
{
    let width = r.head1x1_width;
    let groups = r.layer1x1_groups;
    let bottleneck = r.bottleneck;
    let differs = (groups == 0) & (bottleneck != a.channels);
    if width == 0 {
        return differs | (bottleneck != a.head_in);
    }
    differs | (width != a.head_in)
}

// The slots of a layer, from the place where they start.
fn count(start: Counted, a: ArrayRecord, r: LayerRecord) -> Counted
    requires low { Low 0x1_0000_0000 start.place }
    requires array_ranges { ArrayRanges a }
    requires layer_ranges { LayerRanges r }
    ensures { result ≡ count_all start (slots_of a r) }
{
    let mut place = start.place;
    let mut odd = start.uneven;
    for k in 0..SLOTS {
        let part = slot(a, r, k);
        odd = odd | uneven(part);
        place = place.past(part);
    }
    Counted { place, uneven: odd }
}

impl Tally {
    // Before any layer: the rechannel.
    pub fn start(a: ArrayRecord) -> Tally
        requires { ArrayRanges a }
        ensures { result ≡ start_of a }
    {
        let origin = Place {
            weights: 0,
            histories: 0,
            positions: 0,
        };
        let place = origin.past(Some(rechannel(a)));
        let counted = Counted {
            place,
            uneven: false,
        };
        let widest = array_widest(a);
        Tally {
            counted,
            unmatched: false,
            widest,
            depth: 0,
        }
    }

    pub fn with_layer(self, a: ArrayRecord, r: LayerRecord) -> Tally
        requires low_tally { LowTally self }
        requires array_ranges { ArrayRanges a }
        requires layer_ranges { LayerRanges r }
        ensures { result ≡ with_layer self a r }
    {
        let before = self.counted;
        let counted = count(before, a, r);
        let unmatched = self.unmatched | unmatched(a, r);
        let widest = self.widest.max(layer_widest(r));
        Tally {
            counted,
            unmatched,
            widest,
            depth: self.depth + (r.kernel - 1) * r.dilation,
        }
    }

    // The answer once every layer is in: the head rechannel is the last part, and its one group divides.
    pub fn answer(self, a: ArrayRecord) -> Result<Sizes, Refusal>
        requires low_tally { LowTally self }
        requires array_ranges { ArrayRanges a }
        ensures { result ≡ answer_of self a }
    {
        let counted = self.counted;
        let before = counted.place;
        let place = before.past(Some(head_rechannel(a)));
        if counted.uneven {
            return Err(Refusal::Groups);
        }
        let unmatched = self.unmatched;
        if unmatched {
            return Err(Refusal::Widths);
        }
        if (MOST < place.weights) | (MOST < place.histories) {
            return Err(Refusal::TooLarge);
        }
        Ok(Sizes {
            weights: place.weights,
            histories: place.histories,
            positions: place.positions,
            widest: self.widest,
            depth: self.depth,
        })
    }
}
