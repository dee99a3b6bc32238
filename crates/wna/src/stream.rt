// How many columns to play next, and how the stream ends. Document 01, 'The program'.
ghost use Rattle.std.specs.Prelude.{◌≡◌, ◌<◌, ◌≤◌};
ghost use Rattle.wna.specs.Stream.{next_block, whole_in};

// The next block's size, from the columns that are left.
#[tactic(auto, unfolding(crate::specs::Stream::next_block))]
pub fn next_block(block: usize, left: usize) -> usize
    ensures { result ≡ next_block block left }
{
    block.min(left)
}

// The whole columns in so many bytes.
#[tactic(auto, unfolding(crate::specs::Stream::whole_in))]
pub fn whole_columns(bytes: usize, width: usize) -> usize
    requires { (0 < width) × (width ≤ 96) }
    ensures { result ≡ whole_in width bytes }
{
    bytes / (4 * width)
}
