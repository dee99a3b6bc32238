// The sums of L outputs of a column side by side: what they start at, and all their taps. Carries conv.rs (`process_sample`). Document 01, 'The
// recurrence': start at the bias, or +0 without one; add product by product, tap 0 upward, within a tap local input 0 upward.
ghost use Rattle.std.specs.Prelude.{◌≡◌, true, cond, ◌+◌, ◌*◌, ◌≤◌, ◌<◌, length};
ghost use Rattle.std.specs.Float.Ieee.{of_bits};
ghost use Rattle.std.specs.Float.{binary32};
ghost use Rattle.lists.specs.Tab.{at, tab};
ghost use Rattle.ring.specs.Memory.{past};
ghost use Rattle.shape.specs.Counts.{ring_length};
ghost use Rattle.column.specs.Recurrence.{taps_from};
ghost use Rattle.column.specs.Fits.{GroupFits, PartsFit};

use crate::Filter;
use ring::Ring;

// What the sums of L outputs start at, whose biases are the weights from `from` on.
pub fn start<const L: usize>(filter: &Filter<'_>, from: usize) -> [f32; L]
    requires { filter.now.shape.biased ≡ true → from + L ≤ length filter.now.weights.now }
    ensures { result ≡ tab L (λ i. cond filter.now.shape.biased (at filter.now.weights.now (from + i)) (of_bits binary32 0)) }
{
    if filter.shape.biased {
        sums::lanes::load(filter.weights, from)
    } else {
        [0.0f32; L]
    }
}

// All taps of the L outputs from o on, which are of group g, onto their sums. Read out of the history, where the column was pushed; it may be lent to
// others too.
pub fn taps<const L: usize>(
    sums: [f32; L],
    history: &[f32],
    ring: Ring,
    filter: &Filter<'_>,
    g: usize,
    o: usize,
) -> [f32; L]
    requires { PartsFit filter.now.shape ring.at ring.len (length history.now) (length filter.now.weights.now) × GroupFits filter.now.shape g o L × (0 < L) }
    ensures { result ≡ tab L (λ i. taps_from filter.now.shape filter.now.weights.now
        (past filter.now.shape.ins (ring_length filter.now.shape) (record { history = history.now; place = ring.at })) (o + i) filter.now.shape.kernel (at sums.entry i)) }
{
    let ins = filter.shape.ins;
    let kernel = filter.shape.kernel;
    let ipg = filter.shape.inputs_per_group();
    let base = g * ipg;
    let between = ipg * kernel;
    let w = o * between;
    let mut r = sums;
    for k in 0..kernel {
        let back = filter.steps_back(k);
        let column = ring.back(back);
        let more = sums::lanes::add_outputs(
            r,
            history,
            filter.weights,
            column * ins + base,
            w + k,
            between,
            kernel,
            ipg,
        );
        r = more;
    }
    r
}
