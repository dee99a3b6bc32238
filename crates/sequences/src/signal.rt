// The numbers that the program plays, and what keeps and compares them.
ghost use Rattle.std.specs.Prelude.{◌≡◌, ◌+◌, ◌*◌, ◌<◌, ◌≤◌, length};

// How many columns a signal has.
pub const COLUMNS: usize = 64;

// The number of a channel at a column: of either sign, from a quarter to 2 in size.
fn value(column: usize, channel: usize) -> f32 {
    let mix = (column % 256) * 7919 + (channel % 256) * 104729;
    let sign = (mix % 2) * 0x8000_0000;
    let size = mix * 977 % 0x180_0000;
    single::from_bits((sign + 0x3e80_0000 + size) as u32)
}

// A channel's next columns.
pub fn row(block: &mut [f32], column: usize, channel: usize)
    requires { column + length block.old < 65536 }
{
    for (t, x) in block.iter_mut().enumerate() {
        *x = value(column + t, channel);
    }
}

// Two channels' next columns.
pub fn two_rows(block: &mut [f32], column: usize, channel: usize)
    requires { (column + length block.old < 65536) × (channel < 256) }
{
    let (first, second) = block.split_at_mut(block.len() / 2);
    row(first, column, channel);
    row(second, column, channel + 1);
}

// Two channels' columns to their place among all columns.
pub fn keep(all: &mut [f32], block: &[f32], column: usize)
    requires { (length all.old ≡ 128) × (2 * column + length block.now ≤ 128) }
{
    let n = block.len() / 2;
    let (first, second) = all.split_at_mut(COLUMNS);
    first[column..column + n].copy_from_slice(&block[..n]);
    second[column..column + n].copy_from_slice(&block[n..2 * n]);
}

// Whether the numbers have the same bits.
pub fn same(a: &[f32], b: &[f32]) -> bool {
    a.len() == b.len()
        && a.iter()
            .zip(b)
            .all(|(x, y)| single::to_bits(*x) == single::to_bits(*y))
}
