// Where a part's numbers start in the weights, the histories and the positions. Document 01, 'Description' (order of convolutions).
ghost use Rattle.std.specs.Prelude.{◌≡◌};
ghost use Rattle.description.specs.Ranges.{Fits, Low};
ghost use Rattle.description.specs.Sizes.{past_of};

use crate::parts::Part;

#[derive(Clone, Copy)]
pub struct Place {
    pub weights: usize,
    pub histories: usize,
    pub positions: usize,
}

impl Place {
    // The place of the next part.
    pub fn past(self, part: Part) -> Place
        requires low { Low 0x100_0000_0000 self }
        requires fits { Fits part }
        ensures { result ≡ past_of self part }
    {
        match part {
            None => self,
            Some(sh) => Place {
                weights: self.weights + sh.weight_count(),
                histories: self.histories + sh.history_count(),
                positions: self.positions + 1,
            },
        }
    }
}
