// The description of a layer array, taken apart: its numbers, the records read from them, the parts (convolutions) that they ask for, and the check
// that refuses what is wrong. Carries the asserts of conv.rs, layer.rs and array.rs. Document 01, 'Description' and 'Refusal numbers' 1 to 5.
#![tactic(auto)]

pub mod answers;
pub mod check;
pub mod limits;
pub mod numbers;
pub mod parts;
pub mod places;
pub mod read;
pub mod records;
pub mod tally;
pub mod zeros;

ghost use Rattle.description.specs.Answers.{Answers};

use crate::answers::Sizes;
use refusal::Refusal;

// The counts of weights, histories and positions, W and the memory depth; or the refusal, 1 to 5.
pub fn sizes(description: &[u32]) -> Result<Sizes, Refusal>
    ensures { Answers description.now result }
{
    check::check(description)
}
