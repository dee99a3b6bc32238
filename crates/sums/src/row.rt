// Sixteen columns of one output side by side, for blocks. Carries the inner loop of conv.rs (`process_block`). Document 01, 'The recurrence': add product
// by product. The loops go by the number of an input or of sixteen columns: rows and weights lie strides apart, and sums and inputs are of one buffer.
ghost use Rattle.std.specs.Prelude.{◌≡◌, ◌+◌, ◌*◌, ◌≤◌, length};
ghost use Rattle.std.specs.Float.Ieee.{add, mul};
ghost use Rattle.std.specs.Float.{binary32};
ghost use Rattle.lists.specs.Tab.{at, tab, fill};
ghost use Rattle.single.specs.Sum.{sum_from};
ghost use Rattle.sums.specs.Product.{product};
ghost use Rattle.sums.specs.Fits.{InputsFit, RowFits};

use crate::lanes::{load, save};
use std::array::from_fn;

// One input's product, in each of sixteen columns.
fn add_input(sums: [f32; 16], work: &[f32], from: usize, w: f32) -> [f32; 16]
    requires { from + 16 ≤ length work.now }
    ensures { result ≡ tab 16 (λ i. add binary32 (at sums i) (mul binary32 w (at work.now (from + i)))) }
{
    from_fn(move |i| sums[i] + w * work[from + i])
}

// Every input's product, in each of sixteen columns. The inputs' rows are stride apart, their weights step.
fn add_inputs(
    sums: [f32; 16],
    work: &[f32],
    weights: &[f32],
    from: usize,
    stride: usize,
    w: usize,
    step: usize,
    many: usize,
) -> [f32; 16]
    requires { InputsFit (length work.now) (length weights.now) from stride 16 w step many }
    ensures { result ≡ tab 16 (λ i. sum_from (at sums i) many
        (product weights.now w step (λ j. at work.now (from + j * stride + i)))) }
{
    let mut r = sums;
    for j in 0..many {
        let more = add_input(r, work, from + j * stride, weights[w + j * step]);
        r = more;
    }
    r
}

// Every input's product, onto a row of n sums.
pub fn add_row(
    work: &mut [f32],
    weights: &[f32],
    to: usize,
    from: usize,
    stride: usize,
    n: usize,
    w: usize,
    step: usize,
    many: usize,
)
    requires { RowFits (length work.old) (length weights.now) to from stride n w step many }
    ensures { work.new ≡ fill to n (λ t. sum_from (at work.old (to + t)) many
        (product weights.now w step (λ j. at work.old (from + j * stride + t)))) work.old }
{
    let q = n / 16;
    for i in 0..q {
        let t = i * 16;
        let sums = load(work, to + t);
        let more = add_inputs(sums, work, weights, from + t, stride, w, step, many);
        save(work, to + t, more);
    }
}

// A row of n equal numbers. (The slice's `fill` writes the last one by itself, which makes a short block some per cent slower.)
pub fn flat(work: &mut [f32], to: usize, n: usize, v: f32)
    requires { to + n ≤ length work.old }
    ensures { work.new ≡ fill to n (λ t. v) work.old }
{
    for t in 0..n {
        work[to + t] = v;
    }
}
