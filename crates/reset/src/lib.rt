// Reset: the memory of an array as it is before the first column. Carries the `reset` functions of conv.rs, film.rs, layer.rs and array.rs.
// Document 01, 'The recurrence' (Reset) and 'Refusal numbers' 1 to 5 and 7.
#![tactic(auto)]

ghost use Rattle.std.specs.Prelude.{◌≡◌, ◌+◌, ◌≤◌, length};
ghost use Rattle.std.proofs.lemmas.List.Edits.{sets};
ghost use Rattle.description.specs.Parts.{parts_of};
ghost use Rattle.description.specs.Ranges.{Fits};
ghost use Rattle.description.specs.Records.{array_of};
ghost use Rattle.description.specs.Refusals.{refusal_of};
ghost use Rattle.description.specs.Sizes.{positions_of, total};
ghost use Rattle.refusal.specs.Number.{number_of};
ghost use Rattle.reset.specs.Resets.{Resets, start_of, starts_of};

use description::check::check;
use description::numbers::SLOTS;
use description::parts::Part;
use description::read::part_at;
use description::records::{ArrayRecord, read_array};
use refusal::Refusal;

// One part's position, from place `at` on: ring length - 1. Answers the place of the next part.
fn rewind_part(positions: &mut [u32], at: usize, part: Part) -> usize
    requires fits { Fits part }
    requires part_in_bounds { at + positions_of part ≤ length positions.old }
    ensures value { result ≡ at + positions_of part }
    ensures positions_after { positions.new ≡ sets positions.old at (start_of part) }
{
    match part {
        None => at,
        Some(sh) => {
            let length = sh.ring_length();
            positions[at] = (length - 1) as u32;
            at + 1
        }
    }
}

// The positions of all parts, in their order.
fn rewind(description: &[u32], a: ArrayRecord, positions: &mut [u32])
    requires description_value { refusal_of description.now ≡ 0 }
    requires a_value { a ≡ array_of description.now }
    requires positions_len { length positions.old ≡ total positions_of (parts_of description.now) }
    ensures { positions.new ≡ starts_of (parts_of description.now) }
{
    let count = SLOTS * a.layers + 2;
    let mut at = 0;
    for i in 0..count {
        let part = part_at(description, a, i);
        at = rewind_part(positions, at, part);
    }
}

pub fn reset(
    description: &[u32],
    histories: &mut [f32],
    positions: &mut [u32],
) -> Result<(), Refusal>
    ensures { Resets description.now histories.old positions.old (number_of result) histories.new positions.new }
{
    let sizes = check(description)?;
    if histories.len() != sizes.histories {
        return Err(Refusal::BufferLength);
    }
    if positions.len() != sizes.positions {
        return Err(Refusal::BufferLength);
    }
    histories.fill(0.0);
    rewind(description, read_array(description), positions);
    Ok(())
}
