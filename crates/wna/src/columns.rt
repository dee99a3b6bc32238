// A block's columns, from the bytes as they arrive into planar buffers. Document 01, 'The program'.
ghost use Rattle.std.specs.Prelude.{◌≡◌, ◌+◌, ◌*◌, ◌<◌, ◌≤◌, length};
ghost use Rattle.wna.specs.Columns.{spread_of};

use crate::words::{fill_by, float};

// The w numbers from number k on of each of n columns, planar.
pub fn spread(dst: &mut [f32], bytes: &[u8], width: usize, k: usize, w: usize, n: usize)
    requires { (length dst.old ≡ w * n) × (k + w ≤ width) × (4 * (n * width) ≤ length bytes.now) }
    ensures { dst.new ≡ spread_of bytes.now width k w n }
{
    for c in 0..w {
        let number = k + c;
        let row = &mut dst[c * n..c * n + n];
        fill_by(row, |t| float(bytes, 4 * (t * width + number)));
    }
}
