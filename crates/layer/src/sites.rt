// The convolutions and FiLM sites of a layer, on their regions. Document 01, 'The recurrence' (FiLM, Layer). The rules number sites and slots.
ghost use Rattle.std.specs.Prelude.{◌≡◌, true, ◌⊎◌, ◌+◌, ◌*◌, ◌≤◌, ◌<◌};
ghost use Rattle.description.specs.Parts.{site_width};
ghost use Rattle.description.specs.ZeroRules.{bit};
ghost use Rattle.slot.specs.Bench.{SameBench};
ghost use Rattle.layer.specs.Column.{applied_site, is_blended, is_there};
ghost use Rattle.layer.specs.Held.{ConvPiece, Ready, SitePiece};
ghost use Rattle.layer.specs.Pieces.{Behind, Room};

use crate::Layer;
use description::parts::{core, slot};
use gating::Mode;
use slot::Bench;

fn blended(mode: Mode) -> bool
    ensures { result ≡ is_blended mode }
{
    matches!(mode, Mode::Blended)
}

impl Layer<'_> {
    // Whether site i has shifts.
    fn shifted(&self, i: usize) -> bool
        requires { i < 8 }
        ensures { result ≡ bit self.now.own.now.shift_bits i }
    {
        let bits = self.own.shift_bits;
        (bits >> i) % 2 == 1
    }

    // Whether site i is played: site 6 only in Blended.
    fn plays(&self, i: usize) -> bool
        requires { Behind self.now.array.now self.now.own.now i }
        ensures { result ≡ is_there (applied_site self.now.array.now self.now.own.now i) }
    {
        let applies = blended(self.own.mode);
        let groups = self.own.sites[i];
        (groups != 0) & ((i != 6) | applies)
    }

    // The convolution of slot k, from a region to another, if it is there. Region 11 is used up.
    pub fn convolve(&self, bench: &mut Bench<'_>, k: usize, from: usize, to: usize)
        requires ready { Ready self.now bench.old }
        requires k_bound { (k < 4) × Room self.now.size to × (from + self.now.size ≤ to) × (from + self.now.size ≤ 9 * self.now.size) }
        ensures same { SameBench bench.old bench.new }
        ensures past { ConvPiece self.now bench.old bench.new k from to }
    {
        let Some(sh) = core(*self.array, *self.own, k) else {
            return;
        };
        let at = self.slots.place(k);
        let rows = 11 * self.size;
        bench.play(self.weights, from, to, rows, sh, at, self.columns);
    }

    // FiLM site i, if it is played: w channels from a region to another, or in place. It answers where they are. Regions 9 to 11 are used up. Most sites
    // are not played and a call is often one column, so what asks stands in the piece that calls it: a call for each absent site was slower.
    #[inline(always)]
    pub fn modulate(
        &self,
        bench: &mut Bench<'_>,
        i: usize,
        from: usize,
        to: usize,
        w: usize,
    ) -> usize
        requires ready { Ready self.now bench.old }
        requires behind { Behind self.now.array.now self.now.own.now i × Room self.now.size to × (w ≡ site_width self.now.array.now self.now.own.now i) }
        requires places { (from ≡ to) ⊎ ((from + self.now.size ≤ to) × (to ≤ 9 * self.now.size)) }
        ensures same { SameBench bench.old bench.new }
        ensures past { SitePiece self.now bench.old bench.new i from to result }
    {
        if !self.plays(i) {
            return from;
        }
        self.play_site(bench, i, from, to, w)
    }

    // The same of a site that is played.
    fn play_site(&self, bench: &mut Bench<'_>, i: usize, from: usize, to: usize, w: usize) -> usize
        requires ready { Ready self.now bench.old }
        requires behind { Behind self.now.array.now self.now.own.now i × Room self.now.size to × (w ≡ site_width self.now.array.now self.now.own.now i) }
        requires places { (from ≡ to) ⊎ ((from + self.now.size ≤ to) × (to ≤ 9 * self.now.size)) }
        requires played { true ≡ is_there (applied_site self.now.array.now self.now.own.now i) }
        ensures same { SameBench bench.old bench.new }
        ensures past { SitePiece self.now bench.old bench.new i from to result }
    {
        let part = slot(*self.array, *self.own, 4 + i);
        let with_shift = self.shifted(i);
        let at = self.slots.place(4 + i);
        let condition = 3 * self.size;
        let s = 9 * self.size;
        let rows = 11 * self.size;
        bench.site(
            self.weights,
            condition,
            from,
            to,
            s,
            rows,
            part,
            at,
            with_shift,
            w,
            self.array.condition,
            self.columns,
        )
    }
}
