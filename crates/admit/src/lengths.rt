// The lengths of the buffers that a call is lent, against what the description asks for n columns. Document 01, 'Refusal numbers' 6 and 7.
ghost use Rattle.std.specs.Prelude.{◌≡◌, ◌≤◌};
ghost use Rattle.description.specs.Ranges.{ArrayRanges};
ghost use Rattle.array.specs.Buffers.{lent_shared};
ghost use Rattle.admit.specs.Lengths.{differing};

use array::{Shared, Sources};
use description::answers::Sizes;
use description::records::ArrayRecord;

// A block has no more columns than this.
pub const MOST_COLUMNS: usize = 1024;

// Scratch holds this many regions of W x n numbers.
pub const REGIONS: usize = 16;

// Whether a length differs from its size or from width x n, or scratch is too short. One expression without a branch, since all pass but for a mistake.
pub fn differ(
    sources: &Sources<'_>,
    buffers: &Shared<'_>,
    scratch: &[f32],
    a: ArrayRecord,
    s: Sizes,
    n: usize,
) -> bool
    requires array_ranges { ArrayRanges a }
    requires widest_bound { s.widest ≤ 64 }
    requires n_bound { n ≤ 1024 }
    ensures { result ≡ differing (lent_shared sources.now buffers.now scratch.now) a s n }
{
    (sources.weights.len() != s.weights)
        | (buffers.histories.len() != s.histories)
        | (buffers.positions.len() != s.positions)
        | (sources.input.len() != a.input * n)
        | (sources.condition.len() != a.condition * n)
        | (sources.head_in.len() != a.head_in * n)
        | (buffers.head_out.len() != a.head_size * n)
        | (buffers.array_out.len() != a.channels * n)
        | (scratch.len() < REGIONS * s.widest * n)
}
