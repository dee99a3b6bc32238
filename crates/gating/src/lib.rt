// Carries gating.rs, and GatingMode of model.rs. Document 01, 'The recurrence' (Gating).
#![tactic(auto)]

ghost use Rattle.std.specs.Prelude.{◌≡◌, ◌+◌, ◌≤◌, length};
ghost use Rattle.std.specs.Float.{binary32};
ghost use Rattle.std.specs.Float.Ieee.{mul};
ghost use Rattle.lists.specs.Tab.{at, fill};
ghost use Rattle.gating.specs.Joined.{input_rows, blend};
ghost use Rattle.gating.specs.Over.{GatingFits, GatedOver};

use activation::Activation;

// How a layer's two activations are joined.
#[derive(Clone, Copy)]
pub enum Mode {
    None,
    Gated,
    Blended,
}

impl Mode {
    // Rows of z for so many rows of results.
    pub fn input_rows(self, bottleneck: usize) -> usize
        requires { bottleneck ≤ 0xffff_ffff }
        ensures { result ≡ input_rows self bottleneck }
    {
        match self {
            Mode::None => bottleneck,
            Mode::Gated => 2 * bottleneck,
            Mode::Blended => 2 * bottleneck,
        }
    }
}

// p(a) at out becomes p(a) x s(g). This loop and the next read different regions: one over a closure would be no shorter.
// By index, since the regions are of one buffer.
fn scale_by(work: &mut [f32], out: usize, s: usize, n: usize)
    requires { (out + n ≤ s) × (s + n ≤ length work.old) }
    ensures { work.new ≡ fill out n
        (λ i. mul binary32 (at work.old (out + i)) (at work.old (s + i))) work.old }
{
    for i in 0..n {
        work[out + i] = work[out + i] * work[s + i];
    }
}

// p(a) at out becomes s(g) x p(a) + (1 - s(g)) x a.
fn blend_by(work: &mut [f32], out: usize, a: usize, s: usize, n: usize)
    requires { (out + n ≤ a) × (a + n ≤ s) × (s + n ≤ length work.old) }
    ensures { work.new ≡ fill out n
        (λ i. blend (at work.old (s + i)) (at work.old (out + i)) (at work.old (a + i))) work.old }
{
    for i in 0..n {
        let s_g = work[s + i];
        let p_a = work[out + i];
        work[out + i] = s_g * p_a + (1.0 - s_g) * work[a + i];
    }
}

// A block of columns: n = bottleneck x columns results at out, from z. The g's at z + n become s(g) on the way.
pub fn gating(
    work: &mut [f32],
    out: usize,
    z: usize,
    n: usize,
    mode: Mode,
    primary: Activation,
    secondary: Activation,
)
    requires { GatingFits mode out z n (length work.old) }
    ensures { GatedOver mode primary secondary out z n work.old work.new }
{
    let g = z + n;
    primary.apply_over(work, out, z, n);
    match mode {
        Mode::None => {}
        Mode::Gated => {
            secondary.apply_over(work, g, g, n);
            scale_by(work, out, g, n);
        }
        Mode::Blended => {
            secondary.apply_over(work, g, g, n);
            blend_by(work, out, z, g, n);
        }
    }
}
