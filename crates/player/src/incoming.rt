// The planar buffers that a block's columns come into. Document 01, 'The program'.
ghost use Rattle.std.specs.Prelude.{◌≡◌, ◌*◌, ◌≤◌, length};
ghost use Rattle.wna.specs.File.{width_of};
ghost use Rattle.player.specs.Fits.{Fits};
ghost use Rattle.player.specs.Incoming.{Laid, SameIncoming, Taken};

use crate::lent::Model;
use array::Sources;
use description::records::ArrayRecord;
use wna::columns::spread;

// What comes with a block's columns. What is played goes into buffers that stand apart: a call changes them while its sources are lent, and for one struct
// lent in both ways the borrows got no proof.
#[derive(Drop)]
pub struct Incoming<'a> {
    pub input: &'a mut [f32],
    pub condition: &'a mut [f32],
    pub head_in: &'a mut [f32],
}

impl Incoming<'_> {
    // The numbers of n columns into input, condition and incoming head.
    pub(crate) fn take(&mut self, bytes: &[u8], a: ArrayRecord, n: usize)
        requires fits { Fits a n }
        requires laid { Laid a n self.old }
        requires in_bounds { 4 * (n * width_of a) ≤ length bytes.now }
        ensures same { SameIncoming self.old self.new }
        ensures laid { Laid a n self.new }
        ensures taken { Taken bytes.now a n self.new }
    {
        let inputs = a.input;
        let conditions = a.condition;
        let heads = a.head_in;
        let from = inputs + conditions;
        let width = from + heads;
        spread(self.input, bytes, width, 0, inputs, n);
        spread(self.condition, bytes, width, inputs, conditions, n);
        spread(self.head_in, bytes, width, from, heads, n);
    }

    // A call's sources.
    pub(crate) fn sources<'s>(&'s self, model: Model<'s>) -> Sources<'s>
        ensures description { result.description.now ≡ model.entry.description.now }
        ensures weights { result.weights.now ≡ model.entry.weights.now }
        ensures input { result.input.now ≡ self.now.input.now }
        ensures condition { result.condition.now ≡ self.now.condition.now }
        ensures head_in { result.head_in.now ≡ self.now.head_in.now }
    {
        Sources {
            description: model.description,
            weights: model.weights,
            input: self.input,
            condition: self.condition,
            head_in: self.head_in,
        }
    }
}
