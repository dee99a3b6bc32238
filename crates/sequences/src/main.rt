// Plays sequences of calls, and prints a line for each: the limits that are run and not proved, and the same columns cut in several ways, with refused
// calls among them, which have to give the same bytes. Document 01, 'Bench table' (run only) and 'What the contracts have to say'.
#![tactic(auto)]

ghost use Rattle.std.specs.Prelude.{◌<◌, length};

mod cases;
mod largest;
mod plans;
mod played;
mod signal;

use crate::played::run;
use array::{Buffers, Sources};
use refusal::answer;
use std::io;
use std::io::Write;

// The numbers' bits.
fn print_all<W: Write>(writer: &mut W, numbers: &[f32]) -> io::Result<()> {
    for x in numbers {
        let bits = single::to_bits(*x);
        write!(writer, " {bits:08x}")?;
    }
    Ok(())
}

// Case A in one block, as document 01 has it: its outputs, then the histories that it leaves.
fn print_case_a<W: Write>(writer: &mut W) -> io::Result<()> {
    let d = cases::case_a();
    let weights = [2.0f32, 1.0, 0.5, -1.0, 1.0, 2.0, 0.5, 3.0];
    let mut histories = [9.0f32; 7];
    let mut positions = [9; 5];
    let input = [1.0f32, 2.0, 3.0, -4.0];
    let condition = [0.0f32, 1.0, 0.0, 0.0];
    let head_in = [1.0f32, 0.0, 0.0, 0.0];
    let mut head_out = [0.0f32; 4];
    let mut array_out = [0.0f32; 4];
    let mut scratch = [0.0f32; 64];
    let reset = reset::reset(&d, &mut histories, &mut positions);
    let sources = Sources {
        description: &d,
        weights: &weights,
        input: &input,
        condition: &condition,
        head_in: &head_in,
    };
    let mut buffers = Buffers {
        histories: &mut histories,
        positions: &mut positions,
        head_out: &mut head_out,
        array_out: &mut array_out,
    };
    let block = calls::block(&sources, &mut buffers, &mut scratch, 4);
    write!(writer, "case A: {}", answer(reset.and(block)))?;
    print_all(writer, &head_out)?;
    print_all(writer, &array_out)?;
    write!(writer, "\nits histories: {}", positions[1])?;
    print_all(writer, &histories)?;
    writeln!(writer)
}

fn print_answer<W: Write>(writer: &mut W, d: &[u32]) -> io::Result<()> {
    match description::sizes(d) {
        Ok(sizes) => writeln!(writer, "sizes {sizes}"),
        Err(refusal) => writeln!(writer, "refused {refusal}"),
    }
}

// The largest layer, two of them, and a width of 33.
fn print_largest<W: Write>(writer: &mut W) -> io::Result<()> {
    let mut too_wide = cases::largest();
    too_wide[2] = 33;
    write!(writer, "32 channels, kernel 16, dilation 2048: ")?;
    print_answer(writer, &cases::largest())?;
    write!(writer, "two such layers: ")?;
    print_answer(writer, &cases::twice_largest())?;
    write!(writer, "33 channels: ")?;
    print_answer(writer, &too_wide)?;
    let mut head_out = [0.0f32; 64];
    let number = answer(largest::blocks(&mut head_out));
    write!(writer, "2112 columns: {number}")?;
    print_all(writer, &[head_out[0], head_out[63]])?;
    writeln!(writer)
}

// The columns one by one, and in the pieces of a cut.
fn compare<W: Write>(writer: &mut W, cut: &[usize], with_plans: bool) -> io::Result<()>
    requires { 0 < length cut.now }
{
    let alike = match (run(&[1], false), run(cut, with_plans)) {
        (Some(one), Some(other)) => one.same(&other),
        _ => false,
    };
    writeln!(writer, "{}", if alike { ": same" } else { ": different" })
}

fn main(rt: HostRuntime) -> io::Result<()> {
    let mut writer = rt.stdout();
    print_case_a(&mut writer)?;
    writeln!(writer, "1024 columns: {}", answer(largest::columns(1024)))?;
    writeln!(writer, "1025 columns: {}", answer(largest::columns(1025)))?;
    print_largest(&mut writer)?;
    write!(writer, "cut 64")?;
    compare(&mut writer, &[64], false)?;
    write!(writer, "cut 1,5,58")?;
    compare(&mut writer, &[1, 5, 58], false)?;
    write!(writer, "cut 1,5,58 with plans")?;
    compare(&mut writer, &[1, 5, 58], true)?;
    write!(writer, "cut 3,1,16,2 with plans")?;
    compare(&mut writer, &[3, 1, 16, 2], true)?;
    write!(writer, "cut 64 with plans")?;
    compare(&mut writer, &[64], true)?;
    write!(writer, "columns with plans")?;
    compare(&mut writer, &[1], true)
}
