// Feature-wise linear modulation of a region, by the scales and shifts that the convolved condition gives. Carries film.rs but for its convolution,
// which is a call of `conv`. Document 01, 'The recurrence': scale and shift for one channel travel together; value = input x scale, then + shift only
// where there is one.
#![tactic(auto)]

ghost use Rattle.std.specs.Prelude.{◌≡◌, true, ◌+◌, ◌≤◌, ◌<◌, length};
ghost use Rattle.lists.specs.Tab.{at, fill};
ghost use Rattle.film.specs.Modulated.{modulated, modulation_of, filmed};
ghost use Rattle.film.specs.Fits.{FilmFits, ReadFirst};

// The scale of one number and its shift, where there is one.
#[derive(Clone, Copy)]
pub struct Modulation {
    pub scale: f32,
    pub shift: Option<f32>,
}

impl Modulation {
    // Out of the convolved condition: the scale at `from`, the shift n numbers after it.
    pub fn read(work: &[f32], from: usize, n: usize, shifted: bool) -> Modulation
        requires { (from < length work.now) × (shifted ≡ true → from + n < length work.now) }
        ensures { result ≡ modulation_of shifted (at work.now from) (at work.now (from + n)) }
    {
        let shift = if shifted { Some(work[from + n]) } else { None };
        Modulation {
            scale: work[from],
            shift,
        }
    }

    // Scaled, then shifted where there is a shift.
    pub fn apply(self, input: f32) -> f32
        ensures { result ≡ modulated self input }
    {
        let scaled = input * self.scale;
        match self.shift {
            Some(shift) => scaled + shift,
            None => scaled,
        }
    }
}

// The n numbers at `from`, modulated by the scales at s and the shifts at s + n, to n numbers at `to`, one after the other.
// By index: numbers, scales and results lie in one buffer.
fn one_by_one(work: &mut [f32], to: usize, from: usize, s: usize, n: usize, shifted: bool)
    requires { FilmFits (length work.old) to s n shifted × (from + n ≤ length work.old) × ReadFirst to from n }
    ensures { work.new ≡ fill to n (filmed shifted s n work.old from) work.old }
{
    for i in 0..n {
        let modulation = Modulation::read(work, s + i, n, shifted);
        work[to + i] = modulation.apply(work[from + i]);
    }
}

// The same. Where the numbers stay in place, that is said apart: told so, the compiler takes several at once.
pub fn process(work: &mut [f32], to: usize, from: usize, s: usize, n: usize, shifted: bool)
    requires { FilmFits (length work.old) to s n shifted × (from + n ≤ length work.old) × ReadFirst to from n }
    ensures { work.new ≡ fill to n (filmed shifted s n work.old from) work.old }
{
    if to == from {
        one_by_one(work, to, to, s, n, shifted);
    } else {
        one_by_one(work, to, from, s, n, shifted);
    }
}
