// One convolution for C and Rust callers, for tests and benchmarks of `conv` alone. It asks nothing of its caller: every size and place is tested
// first, and where one is wrong nothing is touched.
#![tactic(auto)]

ghost use Rattle.std.specs.Prelude.{◌≡◌, true, ◌+◌, ◌*◌, ◌≤◌, ◌<◌, length, eqb};
ghost use Rattle.lists.specs.Region.{Apart};
ghost use Rattle.shape.specs.Counts.{InRange, ring_length};
ghost use Rattle.column.specs.Fits.{PartsFit};
ghost use Rattle.conv_call.specs.Called.{Exactly, RegionsFit, CallFits, Called};

use column::Filter;
use conv::Block;
use ring::{Memory, Ring};
use shape::Shape;

// A stretch of work: `count` numbers from `from` on.
#[derive(Clone, Copy)]
struct Region {
    from: usize,
    count: usize,
}

impl Region {
    fn is_within(self, nwork: usize) -> bool
        ensures { Exactly result (self.from + self.count ≤ nwork) }
    {
        self.from <= nwork && self.count <= nwork - self.from
    }

    // The two have no number in common.
    fn is_apart(self, other: Region) -> bool
        requires { (0 < self.count) × (0 < other.count) }
        ensures { Exactly result (Apart self.from self.count other.from other.count) }
    {
        if self.from <= other.from {
            self.count <= other.from - self.from
        } else {
            other.count <= self.from - other.from
        }
    }
}

fn in_range(shape: Shape) -> bool
    ensures { Exactly result (InRange shape) }
{
    (1..=128).contains(&shape.ins)
        && (1..=128).contains(&shape.outs)
        && (1..=16).contains(&shape.kernel)
        && (1..=2048).contains(&shape.dilation)
        && (1..=32).contains(&shape.groups)
}

fn parts_fit(filter: &Filter<'_>, place: usize, history: &[f32]) -> bool
    requires { InRange filter.now.shape }
    ensures { Exactly result (PartsFit filter.now.shape place (ring_length filter.now.shape) (length history.now) (length filter.now.weights.now)) }
{
    let shape = filter.shape;
    let groups = shape.groups;
    shape.ins % groups == 0
        && shape.outs % groups == 0
        && place < shape.ring_length()
        && history.len() == shape.history_count()
        && filter.weights.len() == shape.weight_count()
}

// The three regions of the block lie within work, and apart.
fn regions_fit(work: &[f32], shape: Shape, block: Block) -> bool
    requires { InRange shape × (1 ≤ block.columns) × (block.columns ≤ 1024) }
    ensures { Exactly result (RegionsFit (length work.now) (shape.ins * block.columns) (shape.outs * block.columns) block.x block.out block.rows) }
{
    let count = shape.ins * block.columns;
    let x = Region {
        from: block.x,
        count,
    };
    let rows = Region {
        from: block.rows,
        count,
    };
    let count = shape.outs * block.columns;
    let out = Region {
        from: block.out,
        count,
    };
    let nwork = work.len();
    x.is_within(nwork)
        && out.is_within(nwork)
        && rows.is_within(nwork)
        && out.is_apart(x)
        && out.is_apart(rows)
        && rows.is_apart(x)
}

fn call_fits(
    work: &[f32],
    history: &[f32],
    place: usize,
    filter: &Filter<'_>,
    bias: u32,
    block: Block,
) -> bool
    ensures { Exactly result (CallFits filter.now.shape place bias block.columns (length work.now) (length history.now) (length filter.now.weights.now)
        block.x block.out block.rows) }
{
    bias <= 1
        && (1..=1024).contains(&block.columns)
        && in_range(filter.shape)
        && parts_fit(filter, place, history)
        && regions_fit(work, filter.shape, block)
}

// m columns of one convolution. work holds three regions: at x the columns, planar, at out room for the outputs, and at rows room that is used up.
// place is the place of the column pushed last. C is answered 0, or 1 where a number or a size is wrong.
#[unsafe(no_mangle)]
pub extern "C" fn conv_block(
    work: &mut [f32],
    history: &mut [f32],
    weights: &[f32],
    place: &mut usize,
    x: usize,
    out: usize,
    rows: usize,
    ins: usize,
    outs: usize,
    kernel: usize,
    dilation: usize,
    groups: usize,
    bias: u32,
    m: usize,
) -> u32
    ensures { Called (record { ins = ins; outs = outs; kernel = kernel; dilation = dilation; groups = groups; biased = eqb bias 1 })
        (CallFits (record { ins = ins; outs = outs; kernel = kernel; dilation = dilation; groups = groups; biased = eqb bias 1 })
        place.old bias m (length work.old) (length history.old) (length weights.now) x out rows)
        weights.now m x out rows work.old (record { history = history.old; place = place.old })
        result work.new (record { history = history.new; place = place.new }) }
{
    let biased = bias == 1;
    let shape = Shape {
        ins,
        outs,
        kernel,
        dilation,
        groups,
        biased,
    };
    let filter = Filter { shape, weights };
    let block = Block {
        x,
        out,
        rows,
        columns: m,
    };
    let at = *place;
    if !call_fits(work, history, at, &filter, bias, block) {
        return 1;
    }
    let len = shape.ring_length();
    let ring = Ring { at, len };
    let mut memory = Memory { history, ring };
    conv::conv(work, &mut memory, &filter, block);
    *place = memory.ring.at;
    0
}
