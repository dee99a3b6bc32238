// A convolution of the description, and a FiLM site, on their parts of the weights, histories and positions. Carries what each Conv1d of layer.rs and
// array.rs owns. Document 01, 'Description' (order of convolutions) and 'The recurrence'.
#![tactic(auto)]

ghost use Rattle.std.specs.Prelude.{◌≡◌, true, ◌+◌, ◌*◌, ◌≤◌, length, get_or};
ghost use Rattle.film.specs.Fits.{ReadFirst};
ghost use Rattle.conv.specs.Fits.{ConvFits};
ghost use Rattle.conv.specs.Does.{Convolved};
ghost use Rattle.slot.specs.Bench.{SameBench};
ghost use Rattle.slot.specs.Play.{PlayFits, Played};
ghost use Rattle.slot.specs.Site.{SiteFits, Sited};

use column::Filter;
use conv::Block;
use description::parts::Part;
use description::places::Place;
use ring::{Memory, Ring};
use shape::Shape;

// The buffers that a convolution's step changes: the numbers under way, and what all convolutions remember.
#[derive(Drop)]
pub struct Bench<'a> {
    pub work: &'a mut [f32],
    pub histories: &'a mut [f32],
    pub positions: &'a mut [u32],
}

// A block through a convolution whose history is lent by itself; answers the place of the last column. (The end of a part of the histories is known
// where the part is a parameter: a struct that is made over a part tells nothing of it.)
fn convolve(
    work: &mut [f32],
    history: &mut [f32],
    ring: Ring,
    filter: &Filter<'_>,
    block: Block,
) -> usize
    requires { ConvFits filter.now.shape ring.at ring.len block.columns (length work.old) (length history.old) (length filter.now.weights.now)
        block.x block.out block.rows }
    ensures { Convolved filter.now.shape filter.now.weights.now block.columns block.x block.out block.rows
        work.old (record { history = history.old; place = ring.at }) work.new (record { history = history.new; place = result }) }
{
    let mut memory = Memory { history, ring };
    conv::conv(work, &mut memory, filter, block);
    memory.ring.at
}

impl Bench<'_> {
    // m columns from region x, through the convolution whose numbers lie at a place, into region out.
    pub fn play(
        &mut self,
        weights: &[f32],
        x: usize,
        out: usize,
        rows: usize,
        sh: Shape,
        at: Place,
        m: usize,
    )
        requires { PlayFits sh at (get_or self.old.positions.now at.positions 0) m (length self.old.work.now) (length self.old.histories.now)
            (length self.old.positions.now) (length weights.now) x out rows }
        ensures same { SameBench self.old self.new }
        ensures played { Played sh at weights.now m x out rows self.old.work.now self.old.histories.now self.old.positions.now
            self.new.work.now self.new.histories.now self.new.positions.now }
    {
        let h0 = at.histories;
        let h1 = h0 + sh.history_count();
        let w0 = at.weights;
        let w1 = w0 + sh.weight_count();
        let i = at.positions;
        let place = self.positions[i] as usize;
        let ring = Ring {
            at: place,
            len: sh.ring_length(),
        };
        let filter = Filter {
            shape: sh,
            weights: &weights[w0..w1],
        };
        let block = Block {
            x,
            out,
            rows,
            columns: m,
        };
        let own = &mut self.histories[h0..h1];
        let next = convolve(self.work, own, ring, &filter, block);
        self.positions[i] = next as u32;
    }

    // A FiLM site: w channels of m columns from one region to another, which may be the same, by the scales and shifts that the convolved condition
    // gives. It answers where the columns are: an absent site leaves them where they were, and copies nothing.
    pub fn site(
        &mut self,
        weights: &[f32],
        condition: usize,
        from: usize,
        to: usize,
        s: usize,
        rows: usize,
        part: Part,
        at: Place,
        shifted: bool,
        w: usize,
        width: usize,
        m: usize,
    ) -> usize
        requires site_fits { SiteFits part shifted at (get_or self.old.positions.now at.positions 0) w width m (length self.old.work.now)
            (length self.old.histories.now) (length self.old.positions.now) (length weights.now) condition to s rows }
        requires site_fits_2 { SiteFits part shifted at (get_or self.old.positions.now at.positions 0) w width m (length self.old.work.now)
            (length self.old.histories.now) (length self.old.positions.now) (length weights.now) condition from s rows × ReadFirst to from (w * m) }
        ensures same { SameBench self.old self.new }
        ensures sited { Sited part shifted at weights.now w width m condition from to s rows result
            self.old.work.now self.old.histories.now self.old.positions.now
            self.new.work.now self.new.histories.now self.new.positions.now }
    {
        let Some(sh) = part else {
            return from;
        };
        self.play(weights, condition, s, rows, sh, at, m);
        film::process(self.work, to, from, s, w * m, shifted);
        to
    }
}
