// The file format of the program `ampline`, on slices: the header, the order of refusals, numbers from bytes, a block's columns into planar buffers,
// and how many columns to play. Document 01, 'The program'.
#![tactic(auto)]

pub mod columns;
pub mod header;
pub mod opening;
pub mod stream;
pub mod words;
