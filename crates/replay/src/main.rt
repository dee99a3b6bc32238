// Plays each file that its arguments name, as `ampline` plays standard input, and prints the file's name before it. docs/replay.md says where the files
// and what has to be printed come from. Document 01, 'The program'.
#![tactic(auto)]

use std::env::{Env, FillError};
use std::io::Write;
use std::rt::Files;
use std::{fs, io, str};

// Argument i's file; one that cannot be opened prints its name alone. Whether there is such an argument.
fn one<R: Env + Files, W: Write>(rt: &R, writer: &mut W, i: usize) -> io::Result<bool> {
    let mut path = [0u8; 4096];
    let n = match rt.arg(i, &mut path) {
        Ok(n) => n,
        Err(FillError::TooLong) => 0,
        Err(FillError::NotPresent) => return Ok(false),
    };
    writer.write_all(&path[..n])?;
    writer.write_all(b"\n")?;
    let Ok(name) = str::from_utf8(&path[..n]) else {
        return Ok(true);
    };
    let Ok(mut file) = fs::open(rt, name) else {
        return Ok(true);
    };
    player::play(&mut file, writer)?;
    Ok(true)
}

fn main(rt: HostRuntime) -> io::Result<()> {
    let mut writer = rt.stdout();
    for i in 1..usize::MAX {
        if !one(&rt, &mut writer, i)? {
            break;
        }
    }
    Ok(())
}
