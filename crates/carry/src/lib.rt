// Columns carried between planar buffers of different lengths, and numbers added in place: what layer.rs and array.rs do by slices and `zip`.
// Document 01, 'The recurrence' (Planar, Layer).
#![tactic(auto)]

ghost use Rattle.std.specs.Prelude.{◌≡◌, ◌+◌, ◌*◌, ◌≤◌, length};
ghost use Rattle.std.specs.Float.Ieee.{add};
ghost use Rattle.std.specs.Float.{binary32};
ghost use Rattle.lists.specs.Tab.{at, fill, rows};
ghost use Rattle.lists.specs.Region.{Apart};

// to[t] = from[t], from one buffer to another. Number by number: `copy_from_slice` is a call of C's `memmove`, which the library does not ask of its users.
fn row(dst: &mut [f32], src: &[f32], to: usize, from: usize, m: usize)
    requires { (to + m ≤ length dst.old) × (from + m ≤ length src.now) }
    ensures { dst.new ≡ fill to m (λ t. at src.now (from + t)) dst.old }
{
    for t in 0..m {
        dst[to + t] = src[from + t];
    }
}

// One column of w rows, from one buffer to another: a loop of its own, as a loop within a loop costs more than the one number that it would carry.
fn column(dst: &mut [f32], src: &[f32], to: usize, s: usize, from: usize, n: usize, w: usize)
    requires { (to + 1 + w * s ≤ length dst.old + s) × (from + 1 + w * n ≤ length src.now + n) × (1 ≤ s) × (1 ≤ n) }
    ensures { dst.new ≡ rows to s 1 w (λ c t. at src.now (from + c * n + t)) dst.old }
{
    for c in 0..w {
        dst[to + c * s] = src[from + c * n];
    }
}

// m columns of w rows, row by row: from rows that are n apart to rows that are s apart, from one buffer to another.
fn row_by_row(
    dst: &mut [f32],
    src: &[f32],
    to: usize,
    s: usize,
    from: usize,
    n: usize,
    w: usize,
    m: usize,
)
    requires { (to + m + w * s ≤ length dst.old + s) × (from + m + w * n ≤ length src.now + n) × (m ≤ s) × (m ≤ n) }
    ensures { dst.new ≡ rows to s m w (λ c t. at src.now (from + c * n + t)) dst.old }
{
    for c in 0..w {
        let a = to + c * s;
        let b = from + c * n;
        row(dst, src, a, b, m);
    }
}

// m columns of w rows: from rows that are n apart to rows that are s apart, from one buffer to another.
// The rows lie end to end where these are all columns of both buffers: then they are one row.
pub fn columns(
    dst: &mut [f32],
    src: &[f32],
    to: usize,
    s: usize,
    from: usize,
    n: usize,
    w: usize,
    m: usize,
)
    requires { (to + m + w * s ≤ length dst.old + s) × (from + m + w * n ≤ length src.now + n) × (m ≤ s) × (m ≤ n) }
    ensures { dst.new ≡ rows to s m w (λ c t. at src.now (from + c * n + t)) dst.old }
{
    if m == s && m == n {
        row(dst, src, to, from, w * m);
    } else if m == 1 {
        column(dst, src, to, s, from, n, w);
    } else {
        row_by_row(dst, src, to, s, from, n, w, m);
    }
}

// The same within one buffer, which is split where the later of the two places begins. Where nothing is to be carried, the places may lie anywhere.
pub fn columns_within(
    work: &mut [f32],
    to: usize,
    s: usize,
    from: usize,
    n: usize,
    w: usize,
    m: usize,
)
    requires { (to + m + w * s ≤ length work.old + s) × (from + m + w * n ≤ length work.old + n) × (m ≤ s) × (m ≤ n) × Apart to (w * s) from (w * n) }
    ensures { work.new ≡ rows to s m w (λ c t. at work.old (from + c * n + t)) work.old }
{
    if w == 0 || m == 0 {
        return;
    }
    if to < from {
        let (front, back) = work.split_at_mut(from);
        columns(front, back, to, s, 0, n, w, m);
    } else {
        let (front, back) = work.split_at_mut(to);
        columns(back, front, 0, s, from, n, w, m);
    }
}

// to[i] = to[i] + from[i], within one buffer. By index: `zip` over the two places would take a split for each order, and be no shorter.
pub fn add_to(work: &mut [f32], to: usize, from: usize, n: usize)
    requires { (to + n ≤ length work.old) × (from + n ≤ length work.old) × Apart to n from n }
    ensures { work.new ≡ fill to n
        (λ i. add binary32 (at work.old (to + i)) (at work.old (from + i))) work.old }
{
    for i in 0..n {
        work[to + i] = work[to + i] + work[from + i];
    }
}
