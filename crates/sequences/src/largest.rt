// The limits that are run and not proved: document 01, 'Bench table' (run only).
ghost use Rattle.std.specs.Prelude.{◌≤◌};

use crate::cases::{case_a, largest};
use array::{Buffers, Sources};
use refusal::Refusal;

// A block of n columns of case A's array.
pub fn columns(n: usize) -> Result<(), Refusal>
    requires { n ≤ 1025 }
{
    let weights = [0.5f32; 8];
    let mut histories = [0.0f32; 7];
    let mut positions = [0; 5];
    let ones = [1.0f32; 1025];
    let mut head_out = [0.0f32; 1025];
    let mut array_out = [0.0f32; 1025];
    let mut scratch = [0.0f32; 16400];
    let sources = Sources {
        description: &case_a(),
        weights: &weights,
        input: &ones[..n],
        condition: &ones[..n],
        head_in: &ones[..n],
    };
    let mut buffers = Buffers {
        histories: &mut histories,
        positions: &mut positions,
        head_out: &mut head_out[..n],
        array_out: &mut array_out[..n],
    };
    calls::block(&sources, &mut buffers, &mut scratch, n)
}

// 64 columns of the largest layer.
fn block(
    histories: &mut [f32],
    positions: &mut [u32],
    head_out: &mut [f32],
) -> Result<(), Refusal> {
    let d = largest();
    let weights = [0.0625f32; 16512];
    let input = [4.0f32; 64];
    let condition = [0.0f32; 64];
    let head_in = [0.0f32; 2048];
    let mut array_out = [0.0f32; 2048];
    let mut scratch = [0.0f32; 32768];
    let sources = Sources {
        description: &d,
        weights: &weights,
        input: &input,
        condition: &condition,
        head_in: &head_in,
    };
    let mut buffers = Buffers {
        histories,
        positions,
        head_out,
        array_out: &mut array_out,
    };
    calls::block(&sources, &mut buffers, &mut scratch, 64)
}

// As many as hear the tap 2048 columns back.
const BLOCKS: usize = 33;

// The blocks from a reset, with the last block's outputs.
fn from_reset(
    histories: &mut [f32],
    positions: &mut [u32],
    head_out: &mut [f32],
) -> Result<(), Refusal> {
    reset::reset(&largest(), histories, positions)?;
    for _ in 0..BLOCKS {
        block(histories, positions, head_out)?;
    }
    Ok(())
}

// The same with room for the histories, which are lent: made where they are used, so large an array takes the check too long.
pub fn blocks(head_out: &mut [f32]) -> Result<(), Refusal> {
    let mut histories = [1.0f32; 983106];
    let mut positions = [9; 4];
    from_reset(&mut histories, &mut positions, head_out)
}
