// A causal, dilated, grouped convolution of a planar block of columns, over regions of one scratch. Carries conv.rs (`process_block`); one column alone
// is crate `column`. Document 01, 'The recurrence'.
#![tactic(auto)]

ghost use Rattle.std.specs.Prelude.{◌≡◌, true, ℕ, ◌+◌, ◌*◌, ◌%◌, ◌≤◌, ◌<◌, length};
ghost use Rattle.lists.specs.Tab.{at, rows};
ghost use Rattle.ring.specs.Held.{held, Keeps};
ghost use Rattle.shape.specs.Counts.{InRange, outputs_per_group, weight_count};
ghost use Rattle.shape.specs.Groups.{Divided};
ghost use Rattle.column.specs.Recurrence.{start_of, tap_from};
ghost use Rattle.conv.specs.Fits.{TapFits, WholeFits, PartFits};
ghost use Rattle.conv.specs.Does.{Tapped, AllTapped, Cut, Convolves, Plays};

use column::Filter;
use history::Rows;
use ring::Memory;

// Where the columns of a block lie in work: the input's rows from x on, the output's from out on, and from rows on room for rows that are gathered.
#[derive(Clone, Copy)]
pub struct Block {
    pub x: usize,
    pub out: usize,
    pub rows: usize,
    pub columns: usize,
}

// ---- many columns at once: weight by weight, sixteen columns side by side

// n columns of every output row at what their sums start at.
fn start(work: &mut [f32], filter: &Filter<'_>, out: Rows, n: usize)
    requires { InRange filter.now.shape × Divided filter.now.shape × (length filter.now.weights.now ≡ weight_count filter.now.shape)
        × ((o : ℕ) → o < filter.now.shape.outs → out.first + o * out.stride + n ≤ length work.old) }
    ensures { work.new ≡ rows out.first out.stride n filter.now.shape.outs (λ o t. start_of filter.now.shape filter.now.weights.now o) work.old }
{
    let outs = filter.shape.outs;
    let count = filter.shape.kernel_count();
    for o in 0..outs {
        let b = filter.bias(count + o);
        sums::row::flat(work, out.first + o * out.stride, n, b);
    }
}

// Tap k, onto n columns of the rows of group g, out of the rows `from`.
fn tap_group(
    work: &mut [f32],
    filter: &Filter<'_>,
    out: Rows,
    from: Rows,
    n: usize,
    k: usize,
    g: usize,
)
    requires { TapFits filter.now.shape (length work.old) (length filter.now.weights.now) out.first out.stride from.first from.stride n k
        × (g < filter.now.shape.groups) }
    ensures { work.new ≡ rows (out.first + g * outputs_per_group filter.now.shape * out.stride) out.stride n (outputs_per_group filter.now.shape)
        (λ i t. tap_from filter.now.shape filter.now.weights.now (λ c b. at work.old (from.first + c * from.stride + t))
        (g * outputs_per_group filter.now.shape + i) k
        (at work.old (out.first + (g * outputs_per_group filter.now.shape + i) * out.stride + t))) work.old }
{
    let ipg = filter.shape.inputs_per_group();
    let opg = filter.shape.outputs_per_group();
    let row = from.first + g * ipg * from.stride;
    let kernel = filter.shape.kernel;
    let weights = filter.weights;
    for i in 0..opg {
        let o = g * opg + i;
        sums::row::add_row(
            work,
            weights,
            out.first + o * out.stride,
            row,
            from.stride,
            n,
            o * ipg * kernel + k,
            kernel,
            ipg,
        );
    }
}

// Tap k, onto n columns of every output row.
fn tap(work: &mut [f32], filter: &Filter<'_>, out: Rows, from: Rows, n: usize, k: usize)
    requires { TapFits filter.now.shape (length work.old) (length filter.now.weights.now) out.first out.stride from.first from.stride n k }
    ensures { work.new ≡ rows out.first out.stride n filter.now.shape.outs
        (λ o t. tap_from filter.now.shape filter.now.weights.now (λ c b. at work.old (from.first + c * from.stride + t)) o k
        (at work.old (out.first + o * out.stride + t))) work.old }
{
    let groups = filter.shape.groups;
    for g in 0..groups {
        tap_group(work, filter, out, from, n, k, g);
    }
}

// Whether a tap reads the block's rows where they lie. Only the last tap can, and where the block is cut it does not either: the rows of a long block
// lie so far apart that they push each other out of the nearest memory, and a copy of a part is read faster than it is made.
fn in_place(back: usize, stride: usize, columns: usize) -> bool
    ensures { result ≡ true → back ≡ 0 }
{
    back == 0 && columns == stride
}

// Tap k, wherever its columns are. Here and below the block is a part of one whose rows are `stride` apart.
fn read_tap(
    work: &mut [f32],
    memory: &Memory<'_>,
    filter: &Filter<'_>,
    block: Block,
    stride: usize,
    k: usize,
)
    requires { PartFits filter.now memory.now block stride (length work.old) × (block.columns % 16 ≡ 0) × (k < filter.now.shape.kernel) }
    ensures { Tapped filter.now.shape filter.now.weights.now stride block.columns block.x block.out block.rows (held memory.now) work.old k work.new }
{
    let back = filter.steps_back(k);
    let n = block.columns;
    let x = Rows {
        first: block.x,
        stride,
    };
    let out = Rows {
        first: block.out,
        stride,
    };
    if in_place(back, stride, n) {
        tap(work, filter, out, x, n, k);
    } else {
        let ins = filter.shape.ins;
        let first = block.rows;
        history::gather(work, memory.history, memory.ring, first, x, ins, back, n);
        tap(work, filter, out, Rows { first, stride: n }, n, k);
    }
}

// Every tap, tap 0 upward.
fn taps(work: &mut [f32], memory: &Memory<'_>, filter: &Filter<'_>, block: Block, stride: usize)
    requires { PartFits filter.now memory.now block stride (length work.old) × (block.columns % 16 ≡ 0) }
    ensures { AllTapped filter.now.shape filter.now.weights.now stride block.columns block.x block.out block.rows (held memory.now) work.old
        filter.now.shape.kernel work.new }
{
    let kernel = filter.shape.kernel;
    for k in 0..kernel {
        read_tap(work, memory, filter, block, stride, k);
    }
}

// A whole number of sixteens of columns. Stored after computing: there may be more of them than the history holds.
fn columns(
    work: &mut [f32],
    memory: &mut Memory<'_>,
    filter: &Filter<'_>,
    block: Block,
    stride: usize,
)
    requires { PartFits filter.now memory.old block stride (length work.old) × (block.columns % 16 ≡ 0) }
    ensures kept { Keeps memory.old memory.new }
    ensures done { Plays filter.now block stride work.old memory.old work.new memory.new }
{
    let n = block.columns;
    let x = Rows {
        first: block.x,
        stride,
    };
    let out = Rows {
        first: block.out,
        stride,
    };
    start(work, filter, out, n);
    taps(work, memory, filter, block, stride);
    let ins = filter.shape.ins;
    history::store(memory, work, x, ins, n);
}

// ---- a block, cut into parts

// How many columns to play next of those that are left: whole sixteens, side by side, and at most 256 of them, whose rows the nearest memory holds;
// then one by one.
fn width(left: usize) -> usize
    requires { 0 < left }
    ensures { Cut left result }
{
    if left < 16 {
        return 1;
    }
    if left < 256 {
        return left - left % 16;
    }
    256
}

// The next columns: one, or whole sixteens.
fn part(work: &mut [f32], memory: &mut Memory<'_>, filter: &Filter<'_>, block: Block, stride: usize)
    requires { PartFits filter.now memory.old block stride (length work.old) × ((block.columns ≡ 1 → ⊥) → block.columns % 16 ≡ 0) }
    ensures kept { Keeps memory.old memory.new }
    ensures done { Plays filter.now block stride work.old memory.old work.new memory.new }
{
    let n = block.columns;
    if n == 1 {
        let x = Rows {
            first: block.x,
            stride,
        };
        let out = Rows {
            first: block.out,
            stride,
        };
        column::column(work, memory, filter, x, out);
    } else {
        columns(work, memory, filter, block, stride);
    }
}

// The block in parts. A turn goes on by as many columns as it played: `for` has no such step.
fn parts(work: &mut [f32], memory: &mut Memory<'_>, filter: &Filter<'_>, block: Block)
    requires { WholeFits filter.now memory.old block (length work.old) }
    ensures kept { Keeps memory.old memory.new }
    ensures done { Convolves filter.now block work.old memory.old work.new memory.new }
{
    let m = block.columns;
    let rows = block.rows;
    let mut t = 0;
    while t < m {
        let columns = width(m - t);
        let x = block.x + t;
        let out = block.out + t;
        part(
            work,
            memory,
            filter,
            Block {
                x,
                out,
                rows,
                columns,
            },
            m,
        );
        t += columns;
    }
}

// The block through the convolution, from its input to its output. The contract says what it comes to column by column, as each would be pushed by
// itself. A single column is asked for first: it needs nothing of what the parts make ready.
pub fn conv(work: &mut [f32], memory: &mut Memory<'_>, filter: &Filter<'_>, block: Block)
    requires { WholeFits filter.now memory.old block (length work.old) }
    ensures kept { Keeps memory.old memory.new }
    ensures done { Convolves filter.now block work.old memory.old work.new memory.new }
{
    if block.columns == 1 {
        let x = Rows {
            first: block.x,
            stride: 1,
        };
        let out = Rows {
            first: block.out,
            stride: 1,
        };
        column::column(work, memory, filter, x, out);
    } else {
        parts(work, memory, filter, block);
    }
}
