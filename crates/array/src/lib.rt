// What array.rs computes: the stages of an array, what each remembers, the buffers as they stand between calls, and what a call leaves. Of code only the
// buffers that a call is lent: specs/ has the definitions, proofs/ the laws; the code that carries array.rs is in `stage` (a stage's turn), `admit` (the
// check of a call) and `calls` (column, block, planned block). Document 01, 'The recurrence' (Array), 'Plans', 'Refusal numbers' 6 to 9.
#![tactic(auto)]

ghost use Rattle.std.specs.Prelude.{◌≡◌};

// What a call only reads.
#[derive(Clone, Copy)]
pub struct Sources<'a> {
    pub description: &'a [u32],
    pub weights: &'a [f32],
    pub input: &'a [f32],
    pub condition: &'a [f32],
    pub head_in: &'a [f32],
}

// What a call changes, but for the scratch, which stands apart: a call is lent all of it, the stages only the regions that they use.
#[derive(Drop)]
pub struct Buffers<'a> {
    pub histories: &'a mut [f32],
    pub positions: &'a mut [u32],
    pub head_out: &'a mut [f32],
    pub array_out: &'a mut [f32],
}

// What a call changes, as its check reads it: it may be lent to others too, for which `Buffers` would have to be held alone.
#[derive(Clone, Copy)]
pub struct Shared<'a> {
    pub histories: &'a [f32],
    pub positions: &'a [u32],
    pub head_out: &'a [f32],
    pub array_out: &'a [f32],
}

impl Buffers<'_> {
    // Lent to be read.
    pub fn shared(&self) -> Shared<'_>
        ensures histories { result.histories.now ≡ self.now.histories.now }
        ensures positions { result.positions.now ≡ self.now.positions.now }
        ensures head_out { result.head_out.now ≡ self.now.head_out.now }
        ensures array_out { result.array_out.now ≡ self.now.array_out.now }
    {
        Shared {
            histories: self.histories,
            positions: self.positions,
            head_out: self.head_out,
            array_out: self.array_out,
        }
    }
}
