// What the program's functions are lent. Document 01, 'The program'.
use description::records::ArrayRecord;

// What is played: a description, its array record and its weights.
#[derive(Clone, Copy)]
pub struct Model<'a> {
    pub description: &'a [u32],
    pub array: ArrayRecord,
    pub weights: &'a [f32],
}

// What changes as it is played: what the stages remember, and the room for a block's text. Scratch stands apart, as it does in a call: with three of its
// slices lent to one call the struct's borrows got no proof.
#[derive(Drop)]
pub struct Desk<'a> {
    pub histories: &'a mut [f32],
    pub positions: &'a mut [u32],
    pub text: &'a mut [u8],
}
