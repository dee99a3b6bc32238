// Carries layer.rs: one layer over a block of columns. Document 01, 'The recurrence' (Layer).
#![tactic(auto)]

ghost use Rattle.slot.specs.Bench.{SameBench};
ghost use Rattle.layer.specs.Held.{Ready, Whole};

pub mod pieces;
pub mod sites;
pub mod slots;

use crate::slots::Slots;
use description::records::{ArrayRecord, LayerRecord};
use slot::Bench;

// A layer, and the block that it takes: `columns` columns in regions of `size` numbers.
#[derive(Clone, Copy)]
pub struct Layer<'a> {
    pub array: &'a ArrayRecord,
    pub own: &'a LayerRecord,
    pub slots: Slots,
    pub weights: &'a [f32],
    pub size: usize,
    pub columns: usize,
}

impl Layer<'_> {
    // The block through the layer. Of the regions in `work`, 2 holds the input, 3 the condition and 4 the accumulator, which is added to; the answer
    // says where the layer's output is.
    pub fn play(&self, bench: &mut Bench<'_>) -> usize
        requires { Ready self.now bench.old }
        ensures same { SameBench bench.old bench.new }
        ensures layered { Whole self.now bench.old bench.new result }
    {
        self.front(bench);
        self.mixer(bench);
        self.gate(bench);
        self.head(bench);
        self.residual(bench)
    }
}
