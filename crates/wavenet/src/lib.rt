// The exported functions, for C and Rust. The C interface has numbers for answers and slices one by one, each a pointer and then a length; no requires.
#![tactic(auto)]

ghost use Rattle.std.specs.Prelude.{◌≡◌, cond, ◌≤◌, eqb};
ghost use Rattle.exponent.specs.Exp.{E};
ghost use Rattle.tangent.specs.Tanh.{Tanh};
ghost use Rattle.description.specs.Answers.{listed};
ghost use Rattle.description.specs.Refusals.{refusal_of};
ghost use Rattle.description.specs.Sizes.{sizes_of};
ghost use Rattle.reset.specs.Resets.{Resets};
ghost use Rattle.array.specs.Refusals.{block_refusal, column_refusal, planned_refusal};
ghost use Rattle.array.specs.Calls.{Answers};
ghost use Rattle.admit.specs.Admits.{lent_of};
ghost use Rattle.calls.specs.Fit.{left_of};
ghost use Rattle.wavenet.specs.Small.{Small};

use array::{Buffers, Sources};
use description::answers::Sizes;
use refusal::answer;

// e^x, by E.
#[unsafe(no_mangle)]
pub extern "C" fn wavenet_exp(x: f32) -> f32
    ensures { result ≡ E x }
{
    exponent::exp(x)
}

// tanh x, by Tanh.
#[unsafe(no_mangle)]
pub extern "C" fn wavenet_tanh(x: f32) -> f32
    ensures { result ≡ Tanh x }
{
    tangent::tanh(x)
}

// The five sizes as numbers: weights, histories, positions, W, depth.
fn numbers(s: Sizes) -> [u32; 5]
    requires { Small s }
    ensures { result ≡ listed s }
{
    [
        s.weights as u32,
        s.histories as u32,
        s.positions as u32,
        s.widest as u32,
        s.depth as u32,
    ]
}

// 0 and the sizes of a description, or the refusal 1 to 5; refused, the sizes stay as they were.
#[unsafe(no_mangle)]
pub extern "C" fn wavenet_sizes(description: &[u32], sizes: &mut [u32; 5]) -> u32
    ensures value { result ≡ refusal_of description.now }
    ensures sizes_after { sizes.new ≡ cond (eqb result 0) (listed (sizes_of description.now)) sizes.old }
{
    match description::sizes(description) {
        Ok(s) => {
            *sizes = numbers(s);
            0
        }
        Err(refusal) => u32::from(refusal),
    }
}

// 0 and the memory as it is before the first column, or the refusal 1 to 5 or 7; refused, both buffers stay as they were.
#[unsafe(no_mangle)]
pub extern "C" fn wavenet_reset(
    description: &[u32],
    histories: &mut [f32],
    positions: &mut [u32],
) -> u32
    ensures { Resets description.now histories.old positions.old result histories.new positions.new }
{
    answer(reset::reset(description, histories, positions))
}

// A single column: 0 and the outputs, histories and positions of the recurrence; or the refusal 1 to 5, 7 or 8, and all buffers stay as they were.
#[unsafe(no_mangle)]
pub extern "C" fn wavenet_column(
    description: &[u32],
    weights: &[f32],
    histories: &mut [f32],
    positions: &mut [u32],
    input: &[f32],
    condition: &[f32],
    head_in: &[f32],
    head_out: &mut [f32],
    array_out: &mut [f32],
    scratch: &mut [f32],
) -> u32
    ensures { Answers (lent_of description.now weights.now histories.old positions.old input.now condition.now
        head_in.now head_out.old array_out.old scratch.old) 1 (column_refusal (lent_of description.now weights.now histories.old positions.old input.now condition.now
        head_in.now head_out.old array_out.old scratch.old))
        (left_of result histories.new positions.new head_out.new array_out.new scratch.new) }
{
    let sources = Sources {
        description,
        weights,
        input,
        condition,
        head_in,
    };
    let mut buffers = Buffers {
        histories,
        positions,
        head_out,
        array_out,
    };
    answer(calls::column(&sources, &mut buffers, scratch))
}

// A block of n columns, planar: 0, or the refusal 1 to 8.
#[unsafe(no_mangle)]
pub extern "C" fn wavenet_block(
    description: &[u32],
    weights: &[f32],
    histories: &mut [f32],
    positions: &mut [u32],
    input: &[f32],
    condition: &[f32],
    head_in: &[f32],
    head_out: &mut [f32],
    array_out: &mut [f32],
    scratch: &mut [f32],
    n: usize,
) -> u32
    ensures { Answers (lent_of description.now weights.now histories.old positions.old input.now condition.now
        head_in.now head_out.old array_out.old scratch.old) n (block_refusal (lent_of description.now weights.now histories.old positions.old input.now condition.now
        head_in.now head_out.old array_out.old scratch.old) n)
        (left_of result histories.new positions.new head_out.new array_out.new scratch.new) }
{
    let sources = Sources {
        description,
        weights,
        input,
        condition,
        head_in,
    };
    let mut buffers = Buffers {
        histories,
        positions,
        head_out,
        array_out,
    };
    answer(calls::block(&sources, &mut buffers, scratch, n))
}

// A block of n columns in the turns of a plan: 0, or the refusal 1 to 9.
#[unsafe(no_mangle)]
pub extern "C" fn wavenet_planned(
    description: &[u32],
    weights: &[f32],
    histories: &mut [f32],
    positions: &mut [u32],
    input: &[f32],
    condition: &[f32],
    head_in: &[f32],
    head_out: &mut [f32],
    array_out: &mut [f32],
    scratch: &mut [f32],
    n: usize,
    plan: &[u32],
) -> u32
    ensures { Answers (lent_of description.now weights.now histories.old positions.old input.now condition.now
        head_in.now head_out.old array_out.old scratch.old) n (planned_refusal (lent_of description.now weights.now histories.old positions.old input.now condition.now
        head_in.now head_out.old array_out.old scratch.old) n plan.now)
        (left_of result histories.new positions.new head_out.new array_out.new scratch.new) }
{
    let sources = Sources {
        description,
        weights,
        input,
        condition,
        head_in,
    };
    let mut buffers = Buffers {
        histories,
        positions,
        head_out,
        array_out,
    };
    answer(calls::planned(&sources, &mut buffers, scratch, n, plan))
}
