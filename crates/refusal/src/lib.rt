// Why something is refused, with the numbers of document 01, 'Refusal numbers', in the order in which the reasons are looked for.
#![tactic(auto)]

ghost use Rattle.std.specs.Prelude.{◌≡◌, Some};
ghost use Rattle.std.specs.Fmt.{decimal};
ghost use Rattle.refusal.specs.Number.{number, number_of};

use std::error::Error;
use std::fmt;

#[derive(Clone, Copy, Debug, PartialEq, Eq)]
pub enum Refusal {
    /// The description is shorter than 8, or not 8 + 24 L long.
    DescriptionLength = 1,
    /// A number of it breaks its range or its zero rule.
    Range = 2,
    /// Groups do not divide.
    Groups = 3,
    /// The widths of a layer do not match.
    Widths = 4,
    /// Too many weights, or too long histories.
    TooLarge = 5,
    /// More columns than a block may have.
    BlockSize = 6,
    /// A buffer has another length than it should.
    BufferLength = 7,
    /// A position is not below its ring length.
    Position = 8,
    /// The plan breaks its rule.
    Plan = 9,
    /// The program: a bad or short file, or bytes left over.
    File = 10,
    /// The program: no room.
    Room = 11,
}

impl From<Refusal> for u32 {
    ghost from_gives = { λ refusal n. n ≡ number refusal };

    fn from(refusal: Refusal) -> u32 {
        refusal as u32
    }
}

// What C is told, whatever else the answer holds: 0, or the number of the refusal.
pub fn answer<T: Copy>(outcome: Result<T, Refusal>) -> u32
    ensures { result ≡ number_of outcome }
{
    match outcome {
        Ok(_) => 0,
        Err(refusal) => u32::from(refusal),
    }
}

// Its number, as the programs print it.
impl fmt::Display for Refusal {
    ghost output = { λ refusal. Some (decimal (number refusal)) };

    fn fmt<W: fmt::Write>(&self, f: &mut fmt::Formatter<W>) -> fmt::Result {
        let number = u32::from(*self);
        write!(f, "{number}")
    }
}

impl Error for Refusal {}
