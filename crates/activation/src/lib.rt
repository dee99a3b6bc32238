// Carries activation.rs. Document 01, 'The recurrence' (ReLU, LeakyReLU, Sigmoid), 'Tanh and exp', and the form "an activation with its slope is one
// value".
#![tactic(auto)]

ghost use Rattle.std.specs.Prelude.{◌≡◌, ◌+◌, ◌≤◌, length, Float};
ghost use Rattle.lists.specs.Tab.{at, fill};
ghost use Rattle.activation.specs.Activated.{relu, leaky, sigmoid, activated, Computes};

// An activation with its slope.
#[derive(Clone, Copy)]
pub enum Activation {
    Tanh,
    Relu,
    Sigmoid,
    LeakyRelu(f32),
}

// x above 0 is kept, all else, -0 and NaN too, gives +0.
pub fn relu_of(x: f32) -> f32
    ensures { result ≡ relu x }
{
    if x > 0.0 {
        return x;
    }
    0.0
}

// x above 0 is kept, else slope times x.
fn leaky_of(slope: f32, x: f32) -> f32
    ensures { result ≡ leaky slope x }
{
    if 0.0 < x {
        return x;
    }
    slope * x
}

// 1 / (1 + e^-x).
fn sigmoid_of(x: f32) -> f32
    ensures { result ≡ sigmoid x }
{
    1.0 / (1.0 + exponent::exp(-x))
}

// f over n numbers of a buffer from `from` on, to `to` on. A number is read before its place is written, also where the two stretches are one:
// so by index.
fn over<F: Fn(f32) -> f32>(work: &mut [f32], to: usize, from: usize, n: usize, f: F)
    requires callable { F.IsAlwaysCallable f }
    requires inside { (to ≤ from) × (from + n ≤ length work.old) }
    ensures { (g : Float → Float) → Computes (F.post f) g → work.new ≡ fill to n (λ i. g (at work.old (from + i))) work.old }
{
    for i in 0..n {
        work[to + i] = f(work[from + i]);
    }
}

impl Activation {
    pub fn apply(self, x: f32) -> f32
        ensures { result ≡ activated self x }
    {
        match self {
            Activation::Tanh => tangent::tanh(x),
            Activation::Relu => relu_of(x),
            Activation::Sigmoid => sigmoid_of(x),
            Activation::LeakyRelu(slope) => leaky_of(slope, x),
        }
    }

    // n numbers of a buffer from `from` on, to `to` on. The case is picked once and not per number, so that each loop is plain.
    pub fn apply_over(self, work: &mut [f32], to: usize, from: usize, n: usize)
        requires { (to ≤ from) × (from + n ≤ length work.old) }
        ensures { work.new ≡ fill to n (λ i. activated self (at work.old (from + i))) work.old }
    {
        match self {
            Activation::Tanh => over(work, to, from, n, tangent::tanh),
            Activation::Relu => over(work, to, from, n, relu_of),
            Activation::Sigmoid => over(work, to, from, n, sigmoid_of),
            Activation::LeakyRelu(slope) => over(work, to, from, n, |x| leaky_of(slope, x)),
        }
    }
}
