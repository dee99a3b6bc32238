// The check of a description, in one pass. It changes nothing; it hands back the refusal or the sizes. Document 01, 'Refusal numbers' 1 to 5.
ghost use Rattle.description.specs.Answers.{Answers};

use crate::answers::Sizes;
use crate::limits::{ARRAY_LIMITS, breaks_range};
use crate::numbers::{HEAD_LENGTH, RECORD_LENGTH};
use crate::read::read_layer;
use crate::records::read_array;
use crate::tally::Tally;
use refusal::Refusal;

// A broken number anywhere comes before an uneven part or a wrong width, so it is told at once, and those two only when every layer is in.
pub fn check(description: &[u32]) -> Result<Sizes, Refusal>
    ensures { Answers description.now result }
{
    let n = description.len();
    if n < HEAD_LENGTH {
        return Err(Refusal::DescriptionLength);
    }
    let layers = description[7] as usize;
    if n != HEAD_LENGTH + RECORD_LENGTH * layers {
        return Err(Refusal::DescriptionLength);
    }
    if breaks_range(&ARRAY_LIMITS, description, 0) {
        return Err(Refusal::Range);
    }
    let a = read_array(description);
    let mut tally = Tally::start(a);
    for l in 0..layers {
        let r = read_layer(description, l)?;
        tally = tally.with_layer(a, r);
    }
    tally.answer(a)
}
