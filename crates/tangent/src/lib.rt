// Tanh, as nam-rs's activation.rs takes it from Rust's f32: here a table of 65 rows and whole-number steps, equal bit for bit to the definition Tanh.
// Document 01, 'Tanh and exp'.
//
// The ordinary values, |x| between 2^-13 and 10, take one path without a branch; all others are left to seldom. The rows are
// a static, read in place.
#![tactic(auto)]

ghost use Rattle.std.specs.Prelude.{◌≡◌, ◌+◌, ◌%◌, ◌^◌, ◌≤◌, ◌<◌};
ghost use Rattle.std.specs.Int.Signed.{mag};
ghost use Rattle.std.specs.Float.{binary32};
ghost use Rattle.std.specs.Float.Ieee.{of_bits};
ghost use Rattle.tangent.specs.Tanh.{low, high, number, step, value_at, between, tanh_bits, Tanh};

use single::{not_a_number, to_bits};

mod rows;

// Number k of row i.
fn number_of(i: usize, k: usize) -> i64
    requires { (i < 65) × (k < 6) }
    ensures { (result ≡ number i k) × (mag result < 2 ^ 31) }
{
    rows::ROWS[6 * i + k] as i64
}

// A number c of a row, and d / 2^bits of what the numbers behind it come to.
fn step_of(d: u64, bits: u32, c: i64, v: i64) -> i64
    requires { (d < 2 ^ 21) × (21 ≤ bits) × (bits < 32) × (mag c < 2 ^ 31) × (mag v < 2 ^ 34) }
    ensures { (result ≡ step d bits c v) × (mag result ≤ mag v + 2 ^ 31) }
{
    c + ((v * (d as i64)) >> bits)
}

// The quintic of row i at d. It is never negative.
fn value_of(i: usize, d: u64) -> u64
    requires { (i < 65) × (d < 2 ^ 21) }
    ensures { result ≡ value_at i d }
{
    let v4 = step_of(d, 21, number_of(i, 4), number_of(i, 5));
    let v3 = step_of(d, 21, number_of(i, 3), v4);
    let v2 = step_of(d, 21, number_of(i, 2), v3);
    let v1 = step_of(d, 21, number_of(i, 1), v2);
    step_of(d, 24, number_of(i, 0), v1) as u64
}

// |x| between 2^-13 and 10, by its pattern. 3f7fffff is the last pattern below 1.
fn between_of(a: u32) -> u32
    requires { (low < a) × (a < high) }
    ensures { result ≡ between a }
{
    let i = (a - 0x3900_0000) / 0x20_0000;
    let y = value_of(i as usize, (a % 0x20_0000) as u64);
    let field = (a as u64).min(0x3f7f_ffff) / 0x80_0000 - 2;
    let digits = y.min((y + 0x4000_0020) / 2) / 64;
    (field * 0x80_0000 + digits) as u32
}

// From 10 up, and NaN.
fn seldom(b: u32) -> f32
    requires { high ≤ b % 2 ^ 31 }
    ensures { result ≡ of_bits binary32 (tanh_bits b) }
{
    let a = b % 0x8000_0000;
    if 0x7f80_0000 < a {
        return not_a_number();
    }
    f32::from_bits(b - a + 0x3f80_0000)
}

// Tanh of x.
pub fn tanh(x: f32) -> f32
    ensures { result ≡ Tanh x }
{
    let b = to_bits(x);
    let a = b % 0x8000_0000;
    if a <= 0x3900_0000 {
        return x;
    }
    if 0x4120_0000 <= a {
        return seldom(b);
    }
    f32::from_bits(b - a + between_of(a))
}
