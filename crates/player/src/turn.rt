// One turn: the next block's columns are read, played and printed. Document 01, 'The program'.
ghost use Rattle.std.specs.Prelude.{◌≡◌, ◌+◌, ◌*◌, ◌≤◌, length, IfOk, OnErr};
ghost use Rattle.wna.specs.File.{width_of};
ghost use Rattle.player.specs.Lent.{HasHeard, HasHeardSome, HasPlayed, IsReady, SameDesk};
ghost use Rattle.player.specs.Incoming.{Laid};

use crate::incoming::Incoming;
use crate::lent::{Desk, Model};
use array::Buffers;
use lines::{Columns, put_lines};
use reading::read_full;
use std::io;
use std::io::{Read, Write};
use wna::stream::whole_columns;

// The columns of the bytes, played and written as text; answers how many bytes that is. The block is not refused: what it is lent fits, and the
// positions stay in their rings.
fn play_columns(
    model: Model<'_>,
    desk: &mut Desk<'_>,
    scratch: &mut [f32],
    bytes: &[u8],
    incoming: &mut Incoming<'_>,
    head_out: &mut [f32],
    array_out: &mut [f32],
    first: usize,
    n: usize,
) -> usize
    requires ready { IsReady model desk.old scratch.old n first }
    requires in_bounds { 4 * (n * width_of model.array) ≤ length bytes.now }
    requires laid { Laid model.array n incoming.old }
    requires head_out_len { (length head_out.old ≡ model.array.head_size * n) × (length array_out.old ≡ model.array.channels * n) }
    ensures same { SameDesk desk.old desk.new }
    ensures plays { HasPlayed model.entry bytes.now n first desk.old result desk.new }
{
    let a = model.array;
    incoming.take(bytes, a, n);
    let sources = incoming.sources(model);
    let mut buffers = Buffers {
        histories: &mut *desk.histories,
        positions: &mut *desk.positions,
        head_out,
        array_out,
    };
    calls::block(&sources, &mut buffers, scratch, n).unwrap();
    let columns = Columns {
        head: head_out,
        heads: a.head_size,
        array: array_out,
        arrays: a.channels,
        count: n,
    };
    put_lines(desk.text, first, columns)
}

// The columns of the bytes, played and printed. Lends planar buffers of the right lengths.
fn print_columns<W: Write>(
    writer: &mut W,
    model: Model<'_>,
    desk: &mut Desk<'_>,
    scratch: &mut [f32],
    bytes: &[u8],
    first: usize,
    n: usize,
) -> io::Result<()>
    requires ready { IsReady model desk.old scratch.old n first }
    requires in_bounds { 4 * (n * width_of model.array) ≤ length bytes.now }
    ensures same { SameDesk desk.old desk.new }
    ensures heard { HasHeard model.entry (first + n) desk.new }
{
    let a = model.array;
    let mut input = [0.0f32; 1024];
    let mut condition = [0.0f32; 1024];
    let mut head_in = [0.0f32; 1024];
    let mut head_out = [0.0f32; 1024];
    let mut array_out = [0.0f32; 1024];
    let mut incoming = Incoming {
        input: &mut input[..a.input * n],
        condition: &mut condition[..a.condition * n],
        head_in: &mut head_in[..a.head_in * n],
    };
    let size = play_columns(
        model,
        desk,
        scratch,
        bytes,
        &mut incoming,
        &mut head_out[..a.head_size * n],
        &mut array_out[..a.channels * n],
        first,
        n,
    );
    writer.write_all(&desk.text[..size])
}

// Reads the next block's n columns; plays and prints those that are whole, and answers how many they are.
pub fn turn<R: Read, W: Write>(
    reader: &mut R,
    writer: &mut W,
    model: Model<'_>,
    desk: &mut Desk<'_>,
    scratch: &mut [f32],
    first: usize,
    n: usize,
) -> io::Result<usize>
    requires { IsReady model desk.old scratch.old n first }
    ensures same { SameDesk desk.old desk.new }
    ensures heard { IfOk result (λ whole. (whole ≤ n) × HasHeard model.entry (first + whole) desk.new) }
    ensures err { OnErr result (HasHeardSome model.entry first n desk.new) }
{
    let mut bytes = [0u8; 12288];
    let a = model.array;
    let width = a.input + a.condition + a.head_in;
    let size = 4 * (n * width);
    let got = read_full(reader, &mut bytes[..size])?;
    let whole = whole_columns(got, width);
    if 0 < whole {
        print_columns(writer, model, desk, scratch, &bytes[..got], first, whole)?;
    }
    Ok(whole)
}
