// The columns, block by block, and the last line. Document 01, 'The program'.
ghost use Rattle.std.specs.Prelude.{◌≤◌, ◌<◌, IfOk, OnErr};
ghost use Rattle.refusal.specs.Number.{number_of};
ghost use Rattle.player.specs.Lent.{HasEnded, HasHeardSome, IsReady, SameDesk};

use crate::lent::{Desk, Model};
use crate::turn::turn;
use lines::put_last;
use reading::read_full;
use refusal::Refusal;
use std::io;
use std::io::{Read, Write};
use wna::stream::next_block;

// The last line: how many columns were played, or the refusal.
pub fn last<W: Write>(writer: &mut W, outcome: Result<usize, Refusal>) -> io::Result<()>
    requires { IfOk outcome (λ count. count < 4294967296) }
{
    let mut text = [0u8; 32];
    let n = put_last(&mut text, outcome);
    writer.write_all(&text[..n])
}

// Refused where there is a byte more.
fn left_over<R: Read>(reader: &mut R) -> io::Result<Result<(), Refusal>> {
    let mut byte = [0u8; 1];
    if read_full(reader, &mut byte)? == 0 {
        Ok(Ok(()))
    } else {
        Ok(Err(Refusal::File))
    }
}

// All columns, block by block; refused where one is cut or missing or bytes are left over.
pub fn stream<R: Read, W: Write>(
    reader: &mut R,
    writer: &mut W,
    model: Model<'_>,
    desk: &mut Desk<'_>,
    scratch: &mut [f32],
    block: usize,
    columns: usize,
) -> io::Result<Result<(), Refusal>>
    requires ready { IsReady model desk.old scratch.old block 0 }
    requires le_block { (1 ≤ block) × (columns < 4294967296) }
    ensures same { SameDesk desk.old desk.new }
    ensures ended { IfOk result (λ outcome. HasEnded model.entry columns (number_of outcome) desk.new) }
    ensures err { OnErr result (HasHeardSome model.entry 0 columns desk.new) }
{
    let mut left = columns;
    // the last block may be shorter, so what is left is counted
    while left > 0 {
        let n = next_block(block, left);
        let played = turn(reader, writer, model, desk, scratch, columns - left, n)?;
        if played < n {
            return Ok(Err(Refusal::File));
        }
        left -= n;
    }
    left_over(reader)
}
