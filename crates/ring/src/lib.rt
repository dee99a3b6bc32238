// A place in a history, by value. Carries the ring of conv.rs (`ring_len`, `pos`). Document 01, 'The recurrence': the place in a history moves on by
// one and comes back to zero at the ring length.
#![tactic(auto)]

ghost use Rattle.std.specs.Prelude.{◌≡◌, ◌<◌};
ghost use Rattle.ring.specs.Place.{place_back};
ghost use Rattle.ring.specs.Moved.{moved};

// The place of the column pushed last, in a history of len columns.
#[derive(Clone, Copy)]
pub struct Ring {
    pub at: usize,
    pub len: usize,
}

// What a convolution remembers: its history, and the place in it of the column pushed last.
#[derive(Drop)]
pub struct Memory<'a> {
    pub history: &'a mut [f32],
    pub ring: Ring,
}

impl Ring {
    // The next place.
    pub fn next(self) -> Ring
        requires { self.at < self.len }
        ensures { result ≡ moved self }
    {
        let len = self.len;
        let at = self.at + 1;
        if at < len {
            Ring { at, len }
        } else {
            Ring { at: 0, len }
        }
    }

    // The place of the column some steps back.
    pub fn back(self, steps: usize) -> usize
        requires { (self.at < self.len) × (steps < self.len) }
        ensures { result ≡ place_back self.len self.at steps }
    {
        let at = self.at;
        let len = self.len;
        if steps <= at {
            at - steps
        } else {
            len - (steps - at)
        }
    }
}
