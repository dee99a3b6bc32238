// The pieces of a layer, in their order. `work` has sixteen regions of `size` numbers; a layer uses 2 the input, 3 the condition, 4 the accumulator,
// 5 what conv_pre and input_mixin_pre give, 6 the gated values, 7 conv and z, 8 mixin, 9 and 10 scales and shifts, 11 rows of a convolution, 12 head1x1,
// 13 layer1x1. Document 01, 'The recurrence' (Layer).
ghost use Rattle.slot.specs.Bench.{SameBench};
ghost use Rattle.layer.specs.Held.{LastPiece, Piece, Ready};
ghost use Rattle.layer.specs.Pieces.{Fronted, Mixed, GatedPast, Headed};

use crate::Layer;
use description::parts::doubled;
use slot::Bench;

impl Layer<'_> {
    // Conv input = site 0 (conv_pre) or the input; conv; site 1 (conv_post).
    pub fn front(&self, bench: &mut Bench<'_>)
        requires { Ready self.now bench.old }
        ensures same { SameBench bench.old bench.new }
        ensures piece { Piece Fronted self.now bench.old bench.new }
    {
        let input = 2 * self.size;
        let spare = 5 * self.size;
        let to = 7 * self.size;
        let from = self.modulate(bench, 0, input, spare, self.array.channels);
        self.convolve(bench, 0, from, to);
        self.modulate(bench, 1, to, to, doubled(*self.own));
    }

    // Mixin input = site 2 (input_mixin_pre) of the condition or the condition; mixin; site 3 (input_mixin_post).
    pub fn mixer(&self, bench: &mut Bench<'_>)
        requires { Ready self.now bench.old }
        ensures same { SameBench bench.old bench.new }
        ensures piece { Piece Mixed self.now bench.old bench.new }
    {
        let condition = 3 * self.size;
        let spare = 5 * self.size;
        let to = 8 * self.size;
        let from = self.modulate(bench, 2, condition, spare, self.array.condition);
        self.convolve(bench, 1, from, to);
        self.modulate(bench, 3, to, to, doubled(*self.own));
    }

    // z = conv + mixin; site 4 (activation_pre); gating; site 5 (activation_post).
    pub fn gate(&self, bench: &mut Bench<'_>)
        requires { Ready self.now bench.old }
        ensures same { SameBench bench.old bench.new }
        ensures piece { Piece GatedPast self.now bench.old bench.new }
    {
        let mid = doubled(*self.own);
        let width = self.own.bottleneck;
        let to = 6 * self.size;
        let z = 7 * self.size;
        let mixed = 8 * self.size;
        carry::add_to(bench.work, z, mixed, mid * self.columns);
        self.modulate(bench, 4, z, z, mid);
        gating::gating(
            bench.work,
            to,
            z,
            width * self.columns,
            self.own.mode,
            self.own.primary,
            self.own.secondary,
        );
        self.modulate(bench, 5, to, to, width);
    }

    // Head1x1 then site 7 (head1x1_post), or the gated values; add to the head accumulator, accumulator first.
    pub fn head(&self, bench: &mut Bench<'_>)
        requires { Ready self.now bench.old }
        ensures same { SameBench bench.old bench.new }
        ensures piece { Piece Headed self.now bench.old bench.new }
    {
        let accumulator = 4 * self.size;
        let from = 6 * self.size;
        let width = self.own.head1x1_width;
        if width == 0 {
            carry::add_to(
                bench.work,
                accumulator,
                from,
                self.own.bottleneck * self.columns,
            );
            return;
        }
        let to = 12 * self.size;
        self.convolve(bench, 3, from, to);
        self.modulate(bench, 7, to, to, width);
        carry::add_to(bench.work, accumulator, to, width * self.columns);
    }

    // Layer1x1, site 6 (layer1x1_post) only in Blended, then result + layer input; without layer1x1 the layer input. It answers where the result is.
    pub fn residual(&self, bench: &mut Bench<'_>) -> usize
        requires { Ready self.now bench.old }
        ensures same { SameBench bench.old bench.new }
        ensures piece { LastPiece self.now bench.old bench.new result }
    {
        let input = 2 * self.size;
        if self.own.layer1x1_groups == 0 {
            return input;
        }
        let width = self.array.channels;
        let from = 6 * self.size;
        let to = 13 * self.size;
        self.convolve(bench, 2, from, to);
        self.modulate(bench, 6, to, to, width);
        carry::add_to(bench.work, to, input, width * self.columns);
        to
    }
}
