// Prints the answers of `sizes` and of `reset` on each case of its input. A case is whole numbers of 32 bits, little-endian: how many numbers the
// description has, how many the histories and the positions that are lent to reset, and the description. tools/describe_cases.py writes the cases
// and, by an independent check, what has to be printed.
#![tactic(auto)]

use reading::read_full;
use refusal::answer;
use std::io;
use std::io::{Read, Write};
use wna::words::{unpack_numbers, word};

fn print_sizes<W: Write>(writer: &mut W, d: &[u32]) -> io::Result<()> {
    match description::sizes(d) {
        Ok(sizes) => write!(writer, "sizes {sizes}"),
        Err(refusal) => write!(writer, "refused {refusal}"),
    }
}

// The answer, and what it leaves: how many numbers of the histories are not 0, and the positions.
fn print_reset<W: Write>(
    writer: &mut W,
    d: &[u32],
    histories: &mut [f32],
    positions: &mut [u32],
) -> io::Result<()> {
    let number = answer(reset::reset(d, histories, positions));
    let sounding = histories.iter().filter(|x| **x != 0.0).count();
    let count = positions.len();
    write!(
        writer,
        "; reset {number}, sounding {sounding}, positions {count}"
    )?;
    for position in positions.iter() {
        write!(writer, " {position}")?;
    }
    writeln!(writer)
}

// Lends a case buffers of its lengths, the reset's holding 1 and 9; whether there was a case.
fn one<R: Read, W: Write>(reader: &mut R, writer: &mut W) -> io::Result<bool> {
    let mut head = [0u8; 12];
    let mut bytes = [0u8; 2560];
    let mut numbers = [0u32; 640];
    let mut histories = [1.0f32; 4096];
    let mut positions = [9u32; 512];
    if read_full(reader, &mut head)? != 12 {
        return Ok(false);
    }
    let count = word(&head, 0) as usize;
    let held = word(&head, 4) as usize;
    let parts = word(&head, 8) as usize;
    if count > 640 || held > 4096 || parts > 512 {
        return Ok(false);
    }
    let bytes = &mut bytes[..4 * count];
    let numbers = &mut numbers[..count];
    read_full(reader, bytes)?;
    unpack_numbers(numbers, bytes);
    print_sizes(writer, numbers)?;
    print_reset(
        writer,
        numbers,
        &mut histories[..held],
        &mut positions[..parts],
    )?;
    Ok(true)
}

fn main(rt: HostRuntime) -> io::Result<()> {
    let mut reader = rt.stdin();
    let mut writer = rt.stdout();
    for _ in 0..1_000_000 {
        if !one(&mut reader, &mut writer)? {
            break;
        }
    }
    Ok(())
}
