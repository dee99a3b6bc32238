// What follows from a description's numbers. Document 01, 'Description' (sizes).
ghost use Rattle.std.specs.Prelude.{Some};
ghost use Rattle.description.specs.Printed.{sizes_text};

use std::fmt;

// Counts of numbers; widest is W, depth the memory depth.
#[derive(Clone, Copy)]
pub struct Sizes {
    pub weights: usize,
    pub histories: usize,
    pub positions: usize,
    pub widest: usize,
    pub depth: usize,
}

// The five numbers, as the programs print them.
impl fmt::Display for Sizes {
    ghost output = { λ s. Some (sizes_text s) };

    fn fmt<W: fmt::Write>(&self, f: &mut fmt::Formatter<W>) -> fmt::Result {
        let Sizes {
            weights,
            histories,
            positions,
            widest,
            depth,
        } = *self;
        write!(f, "{weights} {histories} {positions} {widest} {depth}")
    }
}
