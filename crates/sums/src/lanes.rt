// L sums side by side: outputs of one column, or columns of one output. Carries the inner loops of conv.rs. Document 01, 'The recurrence': add product by
// product. The loops go by the number of an input, since the weights of two inputs lie a step apart.
ghost use Rattle.std.specs.Prelude.{◌≡◌, ℕ, ◌+◌, ◌-◌, ◌*◌, ◌≤◌, ◌<◌, length};
ghost use Rattle.std.specs.Float.Ieee.{add, mul};
ghost use Rattle.std.specs.Float.{binary32};
ghost use Rattle.lists.specs.Tab.{at, tab, fill, rows};
ghost use Rattle.single.specs.Sum.{sum_from};
ghost use Rattle.sums.specs.Product.{product};
ghost use Rattle.sums.specs.Fits.{OutputsFit};

use std::array::from_fn;

// L numbers next to each other.
pub fn load<const L: usize>(values: &[f32], from: usize) -> [f32; L]
    requires { from + L ≤ length values.now }
    ensures { result ≡ tab L (λ i. at values.now (from + i)) }
{
    from_fn(|i| values[from + i])
}

// L numbers into work, next to each other. As L is a constant, the compiler stores four at once. The first number comes last: were it the first, as it is
// in `put_apart`, the compiler would make one store of the two in `put`, and the numbers would no longer be stored together. (`copy_from_slice` has them
// laid down in memory before they are copied.)
pub(crate) fn save<const L: usize>(work: &mut [f32], to: usize, sums: [f32; L])
    requires { (0 < L) × (to + L ≤ length work.old) }
    ensures { work.new ≡ fill to L (at sums.entry) work.old }
{
    for i in 1..L {
        work[to + i] = sums[i];
    }
    work[to] = sums[0];
}

// One input's product, in each of L outputs. The weights of two outputs are `between` apart.
fn add_input<const L: usize>(
    sums: [f32; L],
    weights: &[f32],
    w: usize,
    between: usize,
    x: f32,
) -> [f32; L]
    requires { (i : ℕ) → i < L → w + i * between < length weights.now }
    ensures { result ≡ tab L (λ i. add binary32 (at sums.entry i) (mul binary32 (at weights.now (w + i * between)) x)) }
{
    from_fn(
        |i: usize| -> f32
            requires { (i < L) × (w + i * between < length weights.now) }
            ensures { result ≡ add binary32 (at sums i) (mul binary32 (at weights.entry.now (w + i * between)) x) }
        { sums[i] + weights[w + i * between] * x },
    )
}

// Four inputs, their weights next to each other (kernel 1). As four and the step are written out, the compiler loads four weights of an output at once.
// (The check does not cover a result that is laid at once in the array that the call took: so `more`, here and below.)
fn four_next<const L: usize>(
    sums: [f32; L],
    values: &[f32],
    weights: &[f32],
    from: usize,
    w: usize,
    between: usize,
) -> [f32; L]
    requires { OutputsFit (length values.now) (length weights.now) from w between (L - 1) 1 4 }
    ensures { result ≡ tab L (λ i. sum_from (at sums.entry i) 4
        (product weights.now (w + i * between) 1 (λ j. at values.now (from + j)))) }
{
    let mut r = sums;
    for j in 0..4 {
        let more = add_input(r, weights, w + j, between, values[from + j]);
        r = more;
    }
    r
}

// n fours of inputs, the weights of all next to each other.
fn fours_next<const L: usize>(
    sums: [f32; L],
    values: &[f32],
    weights: &[f32],
    from: usize,
    w: usize,
    between: usize,
    n: usize,
) -> [f32; L]
    requires { OutputsFit (length values.now) (length weights.now) from w between (L - 1) 1 (n * 4) }
    ensures { result ≡ tab L (λ i. sum_from (at sums.entry i) (n * 4)
        (product weights.now (w + i * between) 1 (λ j. at values.now (from + j)))) }
{
    let mut r = sums;
    for q in 0..n {
        let more = four_next(r, values, weights, from + q * 4, w + q * 4, between);
        r = more;
    }
    r
}

// Every input's product where the weights of two inputs are next to each other: fours of inputs, then those left.
fn add_next<const L: usize>(
    sums: [f32; L],
    values: &[f32],
    weights: &[f32],
    from: usize,
    w: usize,
    between: usize,
    many: usize,
) -> [f32; L]
    requires { OutputsFit (length values.now) (length weights.now) from w between (L - 1) 1 many }
    ensures { result ≡ tab L (λ i. sum_from (at sums.entry i) many
        (product weights.now (w + i * between) 1 (λ j. at values.now (from + j)))) }
{
    let n = many / 4;
    let mut r = fours_next(sums, values, weights, from, w, between, n);
    for j in n * 4..many {
        let more = add_input(r, weights, w + j, between, values[from + j]);
        r = more;
    }
    r
}

// Every input's product, one by one.
fn add_each<const L: usize>(
    sums: [f32; L],
    values: &[f32],
    weights: &[f32],
    from: usize,
    w: usize,
    between: usize,
    step: usize,
    many: usize,
) -> [f32; L]
    requires { OutputsFit (length values.now) (length weights.now) from w between (L - 1) step many }
    ensures { result ≡ tab L (λ i. sum_from (at sums.entry i) many
        (product weights.now (w + i * between) step (λ j. at values.now (from + j)))) }
{
    let mut r = sums;
    for j in 0..many {
        let more = add_input(r, weights, w + j * step, between, values[from + j]);
        r = more;
    }
    r
}

// Every input's product, in each of L outputs. Kernel 1 has a way of its own; of kernel 3 the weights of two inputs lie apart and have to be loaded
// one by one all the same, and fours of inputs made it no faster.
pub fn add_outputs<const L: usize>(
    sums: [f32; L],
    values: &[f32],
    weights: &[f32],
    from: usize,
    w: usize,
    between: usize,
    step: usize,
    many: usize,
) -> [f32; L]
    requires { OutputsFit (length values.now) (length weights.now) from w between (L - 1) step many }
    ensures { result ≡ tab L (λ i. sum_from (at sums.entry i) many
        (product weights.now (w + i * between) step (λ j. at values.now (from + j)))) }
{
    if step == 1 {
        return add_next(sums, values, weights, from, w, between, many);
    }
    add_each(sums, values, weights, from, w, between, step, many)
}

// L numbers into work, stride apart. By index, as nothing is known of the elements once `iter_mut` is over.
fn put_apart<const L: usize>(work: &mut [f32], to: usize, stride: usize, sums: [f32; L])
    requires { (i : ℕ) → i < L → to + i * stride < length work.old }
    ensures { work.new ≡ rows to stride 1 L (λ i t. at sums.entry i) work.old }
{
    for i in 0..L {
        work[to + i * stride] = sums[i];
    }
}

// The same; those of a single column go at once.
pub fn put<const L: usize>(work: &mut [f32], to: usize, stride: usize, sums: [f32; L])
    requires { (0 < L) × ((i : ℕ) → i < L → to + i * stride < length work.old) }
    ensures { work.new ≡ rows to stride 1 L (λ i t. at sums.entry i) work.old }
{
    if stride == 1 {
        save(work, to, sums);
    } else {
        put_apart(work, to, stride, sums);
    }
}
