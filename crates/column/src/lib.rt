// One column through a convolution: pushed, then its outputs taken, eight or four side by side where so many are left. Carries conv.rs
// (`process_sample`). Document 01, 'The recurrence': start at the bias, or +0 without one; add product by product, tap 0 upward, within a tap local
// input 0 upward.
#![tactic(auto)]

ghost use Rattle.std.specs.Prelude.{◌≡◌, true, cond, ◌⊎◌, ℕ, ◌+◌, ◌*◌, ◌≤◌, ◌<◌, length};
ghost use Rattle.std.specs.Float.Ieee.{of_bits};
ghost use Rattle.std.specs.Float.{binary32};
ghost use Rattle.lists.specs.Tab.{at, rows};
ghost use Rattle.ring.specs.Held.{held, Keeps};
ghost use Rattle.shape.specs.Counts.{InRange, outputs_per_group};
ghost use Rattle.column.specs.Recurrence.{steps_back, output, remembered};
ghost use Rattle.column.specs.Fits.{FilterFits, GroupFits};

pub mod lanes;

use crate::lanes::{start, taps};
use history::Rows;
use ring::Memory;
use shape::Shape;

// A convolution: its shape and its weights.
#[derive(Clone, Copy)]
pub struct Filter<'a> {
    pub shape: Shape,
    pub weights: &'a [f32],
}

impl Filter<'_> {
    // The number that a sum starts at, whose bias is weight i.
    pub fn bias(&self, i: usize) -> f32
        requires { self.now.shape.biased ≡ true → i < length self.now.weights.now }
        ensures { result ≡ cond self.now.shape.biased (at self.now.weights.now i) (of_bits binary32 0) }
    {
        if self.shape.biased {
            self.weights[i]
        } else {
            0.0
        }
    }

    // How many columns back tap k reads.
    pub fn steps_back(&self, k: usize) -> usize
        requires { InRange self.now.shape × (k < self.now.shape.kernel) }
        ensures { result ≡ steps_back self.now.shape k }
    {
        (self.shape.kernel - 1 - k) * self.shape.dilation
    }
}

// The L outputs from o on, which are of group g, side by side.
fn some_outputs<const L: usize>(
    work: &mut [f32],
    memory: &Memory<'_>,
    filter: &Filter<'_>,
    out: Rows,
    g: usize,
    o: usize,
)
    requires { FilterFits filter.now memory.now × GroupFits filter.now.shape g o L × (0 < L)
        × ((o : ℕ) → o < filter.now.shape.outs → out.first + o * out.stride < length work.old) }
    ensures { work.new ≡ rows (out.first + o * out.stride) out.stride 1 L
        (λ i t. output filter.now.shape filter.now.weights.now (held memory.now) (o + i)) work.old }
{
    let begun = start::<L>(filter, filter.shape.kernel_count() + o);
    let sums = taps(begun, memory.history, memory.ring, filter, g, o);
    sums::lanes::put(work, out.first + o * out.stride, out.stride, sums);
}

// The next outputs of group g, of which `left` from o on are left: eight or four side by side, or one alone. Answers how many it took.
fn next_outputs(
    work: &mut [f32],
    memory: &Memory<'_>,
    filter: &Filter<'_>,
    out: Rows,
    g: usize,
    o: usize,
    left: usize,
) -> usize
    requires { FilterFits filter.now memory.now × GroupFits filter.now.shape g o left × (0 < left)
        × ((o : ℕ) → o < filter.now.shape.outs → out.first + o * out.stride < length work.old) }
    ensures taken { (0 < result) × (result ≤ left) }
    ensures of_a_kind { (result ≡ 1) ⊎ ((result ≡ 4) ⊎ (result ≡ 8)) }
    ensures done { work.new ≡ rows (out.first + o * out.stride) out.stride 1 result
        (λ i t. output filter.now.shape filter.now.weights.now (held memory.now) (o + i)) work.old }
{
    if 8 <= left {
        some_outputs::<8>(work, memory, filter, out, g, o);
        8
    } else if 4 <= left {
        some_outputs::<4>(work, memory, filter, out, g, o);
        4
    } else {
        some_outputs::<1>(work, memory, filter, out, g, o);
        1
    }
}

// The outputs of group g: eights, then a four, then those left one by one. A turn goes on by as many as it took: `for` has no such step.
fn group_outputs(work: &mut [f32], memory: &Memory<'_>, filter: &Filter<'_>, out: Rows, g: usize)
    requires { FilterFits filter.now memory.now × (g < filter.now.shape.groups)
        × ((o : ℕ) → o < filter.now.shape.outs → out.first + o * out.stride < length work.old) }
    ensures { work.new ≡ rows (out.first + g * outputs_per_group filter.now.shape * out.stride) out.stride 1 (outputs_per_group filter.now.shape)
        (λ i t. output filter.now.shape filter.now.weights.now (held memory.now) (g * outputs_per_group filter.now.shape + i)) work.old }
{
    let opg = filter.shape.outputs_per_group();
    let first = g * opg;
    let mut i = 0;
    while i < opg {
        let left = opg - i;
        i += next_outputs(work, memory, filter, out, g, first + i, left);
    }
}

// All outputs of the column pushed last.
fn outputs(work: &mut [f32], memory: &Memory<'_>, filter: &Filter<'_>, out: Rows)
    requires { FilterFits filter.now memory.now
        × ((o : ℕ) → o < filter.now.shape.outs → out.first + o * out.stride < length work.old) }
    ensures { work.new ≡ rows out.first out.stride 1 filter.now.shape.outs
        (λ o t. output filter.now.shape filter.now.weights.now (held memory.now) o) work.old }
{
    let groups = filter.shape.groups;
    for g in 0..groups {
        group_outputs(work, memory, filter, out, g);
    }
}

// One column of a block: its input is one of the rows x each, its output one of the rows out each.
pub fn column(work: &mut [f32], memory: &mut Memory<'_>, filter: &Filter<'_>, x: Rows, out: Rows)
    requires { FilterFits filter.now memory.old
        × ((c : ℕ) → c < filter.now.shape.ins → x.first + c * x.stride < length work.old)
        × ((o : ℕ) → o < filter.now.shape.outs → out.first + o * out.stride < length work.old) }
    ensures kept { Keeps memory.old memory.new }
    ensures pushed { held memory.new ≡ remembered filter.now.shape (λ t c. at work.old (x.first + c * x.stride + t)) (held memory.old) 1 }
    ensures done { work.new ≡ rows out.first out.stride 1 filter.now.shape.outs
        (λ o t. output filter.now.shape filter.now.weights.now (held memory.new) o) work.old }
{
    let ins = filter.shape.ins;
    history::store(memory, work, x, ins, 1);
    outputs(work, memory, filter, out);
}
