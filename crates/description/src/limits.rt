// The one range check, and the limits that it walks. Document 01, 'Description': "one table of lowest and highest numbers serves all twenty-four fields".
ghost use Rattle.std.specs.Prelude.{◌≡◌, ◌+◌, ◌≤◌, length};
ghost use Rattle.description.specs.Limits.{breaks_range};

use crate::numbers::{HEAD_LENGTH, RECORD_LENGTH};

// The lowest and the highest number at each place of the array.
pub const ARRAY_LIMITS: [[u32; 2]; HEAD_LENGTH] = [
    [1, 32],
    [1, 32],
    [1, 32],
    [1, 32],
    [1, 32],
    [1, 16],
    [0, 1],
    [1, 24],
];

// The lowest and the highest number at each place of a layer.
pub const LAYER_LIMITS: [[u32; 2]; RECORD_LENGTH] = [
    [1, 32],
    [1, 16],
    [1, 2048],
    [1, 32],
    [1, 32],
    [0, 2],
    [0, 3],
    [0, 0xffff_ffff],
    [0, 3],
    [0, 0xffff_ffff],
    [0, 32],
    [0, 1],
    [0, 32],
    [0, 32],
    [0, 1],
    [0, 32],
    [0, 32],
    [0, 32],
    [0, 32],
    [0, 32],
    [0, 32],
    [0, 32],
    [0, 32],
    [0, 255],
];

// Whether a number from place `at` on lies outside its limits. Every place is looked at, since a turn without a way out is the faster one.
pub fn breaks_range(limits: &[[u32; 2]], description: &[u32], at: usize) -> bool
    requires { at + length limits.now ≤ length description.now }
    ensures { result ≡ breaks_range limits.now description.now at }
{
    let mut broken = false;
    for (p, limit) in limits.iter().enumerate() {
        let x = description[at + p];
        broken = broken | ((x < limit[0]) | (limit[1] < x));
    }
    broken
}
