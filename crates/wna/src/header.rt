// The header: 15 bytes with no padding. Document 01, 'The program'.
ghost use Rattle.wna.specs.Header.{HeaderAnswers};

use crate::words::{half, word};
use refusal::Refusal;

// The most numbers of a description that the program has room for.
pub const MOST_NUMBERS: usize = 584;

// The largest block.
pub const LARGEST_BLOCK: usize = 1024;

pub const HEADER_LENGTH: usize = 15;

#[derive(Clone, Copy)]
pub struct Header {
    pub block: usize,
    pub count: usize,
    pub columns: u32,
}

// A file that ends within the header lends what there is.
pub fn read_header(bytes: &[u8]) -> Result<Header, Refusal>
    ensures { HeaderAnswers bytes.now result }
{
    if bytes.len() < HEADER_LENGTH || !bytes.starts_with(b"WNA") || half(bytes, 3) != 1 {
        return Err(Refusal::File);
    }
    let block = half(bytes, 5) as usize;
    if block == 0 || LARGEST_BLOCK < block {
        return Err(Refusal::File);
    }
    let count = word(bytes, 7) as usize;
    if MOST_NUMBERS < count {
        return Err(Refusal::Room);
    }
    Ok(Header {
        block,
        count,
        columns: word(bytes, 11),
    })
}
