// The plans that the program plays, of four stages. Document 01, 'Plans'.
ghost use Rattle.std.specs.Prelude.{◌≡◌, ◌+◌, ◌*◌, ◌<◌, ◌≤◌, length};

// How many turns each stage takes over a piece.
#[derive(Clone, Copy)]
pub enum Plan {
    One,
    // Two, of which the first takes one column.
    Two,
    EachColumn,
}

impl Plan {
    // The plan of piece i; every fourth piece has none.
    pub fn of_piece(i: usize) -> Option<Plan> {
        match i % 4 {
            0 => Some(Plan::One),
            1 => Some(Plan::Two),
            2 => Some(Plan::EachColumn),
            _ => None,
        }
    }

    // How many turns there are in all.
    pub fn turns(self, n: usize) -> usize
        requires { n ≤ 64 }
        ensures { result ≤ 256 }
    {
        match self {
            Plan::One => 4,
            Plan::Two => 4 * n.min(2),
            Plan::EachColumn => 4 * n,
        }
    }

    // The columns of turn i.
    fn columns(self, i: usize, n: usize) -> usize
        requires { 0 < n }
        ensures { result ≤ n }
    {
        match self {
            Plan::One => n,
            Plan::Two if 3 < i => n - 1,
            _ => 1,
        }
    }

    // The stages take their turns one after the other.
    pub fn write(self, turns: &mut [u32], n: usize)
        requires { (0 < n) × (n ≤ 64) }
    {
        for (i, turn) in turns.chunks_exact_mut(2).enumerate() {
            turn[0] = (i % 4) as u32;
            turn[1] = self.columns(i, n) as u32;
        }
    }
}
