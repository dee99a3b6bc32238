// Plays a file of the program's format from a reader, and prints to a writer as it goes. No contract here says which bytes are read or written. What is
// refused and how much is played is told by wna; that a block's text is the recurrence's from the reset on is told by the contracts of `turn` and `stream`
// (specs/Plays.antt), and specs/Whole.antt puts all of it together. Document 01, 'The program'.
#![tactic(auto)]

mod incoming;
pub mod lent;
pub mod stream;
pub mod turn;

ghost use Rattle.std.specs.Prelude.{◌≡◌, length};
ghost use Rattle.wna.specs.Header.{LowHeader};
ghost use Rattle.wna.specs.Opening.{Opened};

use crate::lent::{Desk, Model};
use crate::stream::{last, stream};
use description::answers::Sizes;
use description::records::read_array;
use reading::read_full;
use std::io;
use std::io::{Read, Write};
use wna::header::{HEADER_LENGTH, Header, MOST_NUMBERS, read_header};
use wna::opening::{MOST_HELD, take_description, take_weights};

// A file whose header and description are not refused.
#[derive(Clone, Copy)]
struct Opening<'a> {
    header: Header,
    sizes: Sizes,
    description: &'a [u32],
    ghost low: { LowHeader header },
    ghost opened: { Opened description.now sizes header.block },
}

// From a reset: all columns, and the last line. The reset is not refused: the buffers have the description's sizes.
fn with_weights<R: Read, W: Write>(
    reader: &mut R,
    writer: &mut W,
    opening: Opening<'_>,
    weights: &[f32],
) -> io::Result<()>
    requires { length weights.now ≡ opening.sizes.weights }
{
    let mut histories = [0.0f32; MOST_HELD];
    let mut positions = [0u32; 290];
    let mut work = [0.0f32; 16384];
    let mut text = [0u8; 29696];
    let description = opening.description;
    let histories = &mut histories[..opening.sizes.histories];
    let positions = &mut positions[..opening.sizes.positions];
    reset::reset(description, histories, positions).unwrap();
    let model = Model {
        description,
        array: read_array(description),
        weights,
    };
    let mut desk = Desk {
        histories,
        positions,
        text: &mut text,
    };
    let columns = opening.header.columns as usize;
    let block = opening.header.block;
    match stream(reader, writer, model, &mut desk, &mut work, block, columns)? {
        Ok(()) => last(writer, Ok(columns)),
        Err(refusal) => last(writer, Err(refusal)),
    }
}

// Reads the weights.
fn with_description<R: Read, W: Write>(
    reader: &mut R,
    writer: &mut W,
    opening: Opening<'_>,
) -> io::Result<()> {
    let mut weights = [0.0f32; MOST_HELD];
    let mut bytes = [0u8; 4 * MOST_HELD];
    let weights = &mut weights[..opening.sizes.weights];
    let got = read_full(reader, &mut bytes[..4 * opening.sizes.weights])?;
    match take_weights(weights, &bytes[..got]) {
        Ok(()) => with_weights(reader, writer, opening, weights),
        Err(refusal) => last(writer, Err(refusal)),
    }
}

// Reads the description.
fn with_header<R: Read, W: Write>(reader: &mut R, writer: &mut W, header: Header) -> io::Result<()>
    requires { LowHeader header }
{
    let mut numbers = [0u32; MOST_NUMBERS];
    let mut bytes = [0u8; 4 * MOST_NUMBERS];
    let numbers = &mut numbers[..header.count];
    let got = read_full(reader, &mut bytes[..4 * header.count])?;
    match take_description(numbers, &bytes[..got], header.block) {
        Ok(sizes) => {
            let opening = Opening {
                header,
                sizes,
                description: numbers,
            };
            with_description(reader, writer, opening)
        }
        Err(refusal) => last(writer, Err(refusal)),
    }
}

pub fn play<R: Read, W: Write>(reader: &mut R, writer: &mut W) -> io::Result<()> {
    let mut bytes = [0u8; HEADER_LENGTH];
    let got = read_full(reader, &mut bytes)?;
    match read_header(&bytes[..got]) {
        Ok(header) => with_header(reader, writer, header),
        Err(refusal) => last(writer, Err(refusal)),
    }
}
