// The shape of a convolution, and the counts that follow from it. Carries the sizes of conv.rs (Conv1d's fields, `new_grouped`). Document 01,
// 'Description': groups, ring length, counts of weights and histories.
#![tactic(auto)]

ghost use Rattle.std.specs.Prelude.{◌≡◌, ◌/◌, ◌<◌};
ghost use Rattle.shape.specs.Counts.{InRange, ring_length, inputs_per_group, outputs_per_group, kernel_count, weight_count, history_count};

// in, out, kernel, dilation, groups, and whether there is a bias.
#[derive(Clone, Copy)]
pub struct Shape {
    pub ins: usize,
    pub outs: usize,
    pub kernel: usize,
    pub dilation: usize,
    pub groups: usize,
    pub biased: bool,
}

// A count divided among the groups. Most convolutions have one group, and a division is dear where a call is one column.
fn per_group(n: usize, groups: usize) -> usize
    requires { 0 < groups }
    ensures { result ≡ n / groups }
{
    if groups == 1 {
        return n;
    }
    n / groups
}

impl Shape {
    pub fn ring_length(self) -> usize
        requires { InRange self }
        ensures { result ≡ ring_length self }
    {
        (self.kernel - 1) * self.dilation + 1
    }

    pub fn inputs_per_group(self) -> usize
        requires { InRange self }
        ensures { result ≡ inputs_per_group self }
    {
        per_group(self.ins, self.groups)
    }

    pub fn outputs_per_group(self) -> usize
        requires { InRange self }
        ensures { result ≡ outputs_per_group self }
    {
        per_group(self.outs, self.groups)
    }

    // Weights without the bias.
    pub fn kernel_count(self) -> usize
        requires { InRange self }
        ensures { result ≡ kernel_count self }
    {
        per_group(self.outs * self.ins * self.kernel, self.groups)
    }

    // Weights with the bias.
    pub fn weight_count(self) -> usize
        requires { InRange self }
        ensures { result ≡ weight_count self }
    {
        let count = self.kernel_count();
        let biased = self.biased;
        if biased {
            return count + self.outs;
        }
        count
    }

    pub fn history_count(self) -> usize
        requires { InRange self }
        ensures { result ≡ history_count self }
    {
        self.ins * self.ring_length()
    }
}
