// Where the numbers of a layer's slots start. Document 01, 'Description' (order of convolutions).
ghost use Rattle.std.specs.Prelude.{◌≡◌, suc, ◌+◌, ◌<◌};
ghost use Rattle.description.specs.Parts.{slots_of};
ghost use Rattle.description.specs.Ranges.{ArrayRanges, LayerRanges, Low};
ghost use Rattle.description.specs.Tally.{past_all};
ghost use Rattle.layer.specs.Layered.{slot_place};
ghost use Rattle.layer.specs.Slots.{place_in, SlotsOf};

use description::parts::{core, slot};
use description::places::Place;
use description::records::{ArrayRecord, LayerRecord};

// Where the numbers of a layer's slots start, and where those of the next layer do. An array that a loop fills is slower: LLVM makes each slot's part
// where the slot's number stands in the code; with a number that runs it took 780 instructions a layer for 240.
#[derive(Clone, Copy)]
pub struct Slots {
    pub conv: Place,
    pub mixin: Place,
    pub layer1x1: Place,
    pub head1x1: Place,
    pub conv_pre: Place,
    pub conv_post: Place,
    pub input_mixin_pre: Place,
    pub input_mixin_post: Place,
    pub activation_pre: Place,
    pub activation_post: Place,
    pub layer1x1_post: Place,
    pub head1x1_post: Place,
    pub end: Place,
}

impl Slots {
    // The place of slot k, by the number that the rules give it.
    pub fn place(&self, k: usize) -> Place
        requires { k < 12 }
        ensures { result ≡ place_in self.now k }
    {
        match k {
            0 => self.conv,
            1 => self.mixin,
            2 => self.layer1x1,
            3 => self.head1x1,
            4 => self.conv_pre,
            5 => self.conv_post,
            6 => self.input_mixin_pre,
            7 => self.input_mixin_post,
            8 => self.activation_pre,
            9 => self.activation_post,
            10 => self.layer1x1_post,
            _ => self.head1x1_post,
        }
    }
}

// The place past slot k of the first four, which starts at `at`.
fn past_core(a: ArrayRecord, r: LayerRecord, start: Place, at: Place, k: usize) -> Place
    requires array_ranges { ArrayRanges a }
    requires layer_ranges { LayerRanges r }
    requires low { Low 0xffff_ffff (past_all start (slots_of a r)) }
    requires k_bound { (k < 4) × (at ≡ slot_place a r start k) }
    ensures { result ≡ slot_place a r start (suc k) }
{
    at.past(core(a, r, k))
}

// The place past site i, which starts at `at`. One that is absent takes no place: that is asked first, as most are.
fn past_site(a: ArrayRecord, r: LayerRecord, start: Place, at: Place, i: usize) -> Place
    requires array_ranges { ArrayRanges a }
    requires layer_ranges { LayerRanges r }
    requires low { Low 0xffff_ffff (past_all start (slots_of a r)) }
    requires i_bound { (i < 8) × (at ≡ slot_place a r start (4 + i)) }
    ensures { result ≡ slot_place a r start (suc (4 + i)) }
{
    if r.sites[i] == 0 {
        return at;
    }
    at.past(slot(a, r, 4 + i))
}

// The places of a layer whose numbers start at `start`. A layer's turn holds what this makes, and a call would copy it twice: so it stands inline there.
#[inline(always)]
pub fn slots_from(a: ArrayRecord, r: LayerRecord, start: Place) -> Slots
    requires array_ranges { ArrayRanges a }
    requires layer_ranges { LayerRanges r }
    requires low { Low 0xffff_ffff (past_all start (slots_of a r)) }
    ensures { (result.conv ≡ start) × SlotsOf a r result × (result.end ≡ past_all start (slots_of a r)) }
{
    let mixin = past_core(a, r, start, start, 0);
    let layer1x1 = past_core(a, r, start, mixin, 1);
    let head1x1 = past_core(a, r, start, layer1x1, 2);
    let conv_pre = past_core(a, r, start, head1x1, 3);
    let conv_post = past_site(a, r, start, conv_pre, 0);
    let input_mixin_pre = past_site(a, r, start, conv_post, 1);
    let input_mixin_post = past_site(a, r, start, input_mixin_pre, 2);
    let activation_pre = past_site(a, r, start, input_mixin_post, 3);
    let activation_post = past_site(a, r, start, activation_pre, 4);
    let layer1x1_post = past_site(a, r, start, activation_post, 5);
    let head1x1_post = past_site(a, r, start, layer1x1_post, 6);
    let end = past_site(a, r, start, head1x1_post, 7);
    Slots {
        conv: start,
        mixin,
        layer1x1,
        head1x1,
        conv_pre,
        conv_post,
        input_mixin_pre,
        input_mixin_post,
        activation_pre,
        activation_post,
        layer1x1_post,
        head1x1_post,
        end,
    }
}
