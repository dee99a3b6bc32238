// A layer's record, or that it is broken; and the parts by number. Document 01, 'Refusal numbers' 2; the form "no call goes on with a description it
// has not taken apart".
ghost use Rattle.std.specs.Prelude.{◌≡◌, ◌+◌, ◌*◌, ◌<◌, ◌≤◌, get_or, length, None};
ghost use Rattle.description.specs.Numbers.{layer_count, record_at, record_length};
ghost use Rattle.description.specs.Answers.{LayerAnswers};
ghost use Rattle.description.specs.Parts.{parts_of};
ghost use Rattle.description.specs.Records.{array_of};
ghost use Rattle.description.specs.Refusals.{refusal_of};

use crate::limits::{LAYER_LIMITS, breaks_range};
use crate::numbers::{HEAD_LENGTH, RECORD_LENGTH, SLOTS};
use crate::parts::{Part, head_rechannel, rechannel, slot};
use crate::records::{ArrayRecord, LayerRecord, layer_record};
use crate::zeros::breaks_zero_rule;
use refusal::Refusal;

pub fn read_layer(description: &[u32], l: usize) -> Result<LayerRecord, Refusal>
    requires { record_at l + record_length ≤ length description.now }
    ensures { LayerAnswers description.now l result }
{
    let at = HEAD_LENGTH + RECORD_LENGTH * l;
    if breaks_range(&LAYER_LIMITS, description, at) || breaks_zero_rule(description, at) {
        return Err(Refusal::Range);
    }
    Ok(layer_record(description, l))
}

// The part with number i of a description that is not refused, a being its array's record.
pub fn part_at(description: &[u32], a: ArrayRecord, i: usize) -> Part
    requires description_value { refusal_of description.now ≡ 0 }
    requires a_value { a ≡ array_of description.now }
    requires i_bound { i < 12 * layer_count description.now + 2 }
    ensures { result ≡ get_or (parts_of description.now) i None }
{
    if i == 0 {
        return Some(rechannel(a));
    }
    let l = (i - 1) / SLOTS;
    let layers = a.layers;
    if l == layers {
        return Some(head_rechannel(a));
    }
    slot(a, layer_record(description, l), (i - 1) % SLOTS)
}
