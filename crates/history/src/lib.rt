// Columns between a block and a history: all columns of a block stored, and the columns that a tap reads gathered, some out of the history and the
// rest out of the block itself. Carries the ring of conv.rs, both its staging and its update. Document 01, 'The recurrence': the place moves on, then
// the column is stored; channel j of a column at place x in + j.
#![tactic(auto)]

ghost use Rattle.std.specs.Prelude.{◌≡◌, ℕ, ◌+◌, ◌-◌, ◌*◌, ◌≤◌, ◌<◌, length};
ghost use Rattle.lists.specs.Tab.{at, fill, rows};
ghost use Rattle.lists.specs.Region.{Apart};
ghost use Rattle.ring.specs.Memory.{past, after, seen};
ghost use Rattle.ring.specs.Held.{held, Keeps};
ghost use Rattle.history.specs.Fits.{StoreFits, FetchFits, CopyFits, GatherFits};

use ring::{Memory, Ring};

// Where the rows of a block lie in work: row c, which is channel c of each column, begins at first + c * stride.
#[derive(Clone, Copy)]
pub struct Rows {
    pub first: usize,
    pub stride: usize,
}

// One column of work, its channels stride apart, into the history from base on. By index, here and below: after `iter_mut` with another adapter a proof
// knows nothing of the numbers that were written.
fn store_apart(
    history: &mut [f32],
    work: &[f32],
    base: usize,
    from: usize,
    stride: usize,
    ins: usize,
)
    requires { (base + ins ≤ length history.old) × ((j : ℕ) → j < ins → from + j * stride < length work.now) }
    ensures { history.new ≡ fill base ins (λ j. at work.now (from + j * stride)) history.old }
{
    for j in 0..ins {
        history[base + j] = work[from + j * stride];
    }
}

// The same. Those of a single column are next to each other, and with that said the compiler copies four at once.
fn store_column(
    history: &mut [f32],
    work: &[f32],
    base: usize,
    from: usize,
    stride: usize,
    ins: usize,
)
    requires { (base + ins ≤ length history.old) × ((j : ℕ) → j < ins → from + j * stride < length work.now) }
    ensures { history.new ≡ fill base ins (λ j. at work.now (from + j * stride)) history.old }
{
    if stride == 1 {
        store_apart(history, work, base, from, 1, ins);
    } else {
        store_apart(history, work, base, from, stride, ins);
    }
}

// The n columns of a block, pushed one after the other: the place moves on, then the column is stored. Written to the memory with each column, the place
// would cost a nanosecond a column: so it is written at the end.
pub fn store(memory: &mut Memory<'_>, work: &[f32], block: Rows, ins: usize, n: usize)
    requires { StoreFits memory.old.ring.at memory.old.ring.len (length memory.old.history.now) (length work.now) ins block.first block.stride n }
    ensures kept { Keeps memory.old memory.new }
    ensures stored { held memory.new ≡ after ins memory.old.ring.len (λ t j. at work.now (block.first + j * block.stride + t)) (held memory.old) n }
{
    let stride = block.stride;
    let mut ring = memory.ring;
    for column in 0..n {
        ring = ring.next();
        let base = ring.at * ins;
        let first = block.first + column;
        store_column(memory.history, work, base, first, stride, ins);
    }
    memory.ring = ring;
}

// One column of the history, from base on, into work.
fn fetch_column(work: &mut [f32], history: &[f32], to: Rows, base: usize, ins: usize)
    requires { (base + ins ≤ length history.now) × ((j : ℕ) → j < ins → to.first + j * to.stride < length work.old) }
    ensures { work.new ≡ rows to.first to.stride 1 ins (λ j t. at history.now (base + j)) work.old }
{
    let first = to.first;
    let stride = to.stride;
    for j in 0..ins {
        work[first + j * stride] = history[base + j];
    }
}

// The n columns of the history from the one `back` columns before the next on.
fn fetch(work: &mut [f32], history: &[f32], ring: Ring, to: Rows, ins: usize, back: usize, n: usize)
    requires { FetchFits ring.at ring.len (length history.now) (length work.old) ins to.first to.stride back n }
    ensures { work.new ≡ rows to.first to.stride n ins (λ j t. past ins ring.len (record { history = history.now; place = ring.at }) j (back - t - 1)) work.old }
{
    let len = ring.len;
    let stride = to.stride;
    let mut place = Ring {
        at: ring.back(back),
        len,
    };
    for t in 0..n {
        place = place.next();
        let first = to.first + t;
        let base = place.at * ins;
        fetch_column(work, history, Rows { first, stride }, base, ins);
    }
}

// n numbers of work to another place of it. A block's rows lie on either side of that: a split for `copy_from_slice` would take both cases apart.
// `copy_within` goes number by number too, and was 2 % slower at sixteen columns.
fn copy(work: &mut [f32], to: usize, from: usize, n: usize)
    requires { (to + n ≤ length work.old) × (from + n ≤ length work.old) × Apart to n from n }
    ensures { work.new ≡ fill to n (λ t. at work.old (from + t)) work.old }
{
    for t in 0..n {
        work[to + t] = work[from + t];
    }
}

// The first n numbers of each of w rows.
fn copy_rows(work: &mut [f32], to: Rows, from: Rows, w: usize, n: usize)
    requires { CopyFits (length work.old) to.first to.stride from.first from.stride w n }
    ensures { work.new ≡ rows to.first to.stride n w (λ c t. at work.old (from.first + c * from.stride + t)) work.old }
{
    for c in 0..w {
        copy(
            work,
            to.first + c * to.stride,
            from.first + c * from.stride,
            n,
        );
    }
}

// What stands `back` columns back from each of the n columns of a block: those before the block out of the history, the rest out of the block. The
// gathered rows stand next to each other from `to` on. The history is only read, so it may be lent to others too: a `Memory` could not be.
pub fn gather(
    work: &mut [f32],
    history: &[f32],
    ring: Ring,
    to: usize,
    block: Rows,
    ins: usize,
    back: usize,
    n: usize,
)
    requires { GatherFits ring.at ring.len (length history.now) (length work.old) ins to block.first block.stride back n }
    ensures { work.new ≡ rows to n n ins
        (λ c t. seen (λ i. at work.old (block.first + c * block.stride + i)) (past ins ring.len (record { history = history.now; place = ring.at }) c) back t) work.old }
{
    let before = back.min(n);
    let first = to + before;
    fetch(
        work,
        history,
        ring,
        Rows {
            first: to,
            stride: n,
        },
        ins,
        back,
        before,
    );
    copy_rows(work, Rows { first, stride: n }, block, ins, n - before);
}
