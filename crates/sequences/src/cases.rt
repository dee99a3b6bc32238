// The descriptions that the program plays. A number below ten is a digit; the others are set after that.
ghost use Rattle.std.specs.Prelude.{◌≤◌};

use std::array;

// The numbers of a text of digits.
fn numbers<const N: usize>(digits: &[u8; N]) -> [u32; N] {
    array::from_fn(|i| u32::from(digits[i] % 16))
}

// Two layers of two channels: one Gated, with head1x1 and sites 1 and 5; one Blended and Leaky, with sites 0 and 6. 130 weights, 48 numbers of histories,
// 13 positions; W is 4.
pub fn two_layers() -> [u32; 56] {
    let mut d = numbers(b"22222312232111002011211010002002225222301020000100000101");
    d[39] = 0x3e00_0000;
    d
}

// Document 01's case A.
pub fn case_a() -> [u32; 32] {
    numbers(b"11111101122110100011000000000000")
}

// The same layers, each of 32 channels with the largest kernel and dilation.
fn widest<const N: usize>(digits: &[u8; N]) -> [u32; N]
    requires { 8 ≤ N }
{
    let mut d = numbers(digits);
    d[2] = 32;
    d[3] = 32;
    let records = &mut d[..];
    for layer in records[8..].chunks_exact_mut(24) {
        layer[0] = 32;
        layer[1] = 16;
        layer[2] = 2048;
    }
    d
}

// One layer of 32 channels with the largest kernel and dilation.
pub fn largest() -> [u32; 32] {
    widest(b"11001101000110100000000000000000")
}

// Two such layers.
pub fn twice_largest() -> [u32; 56] {
    widest(b"11001102000110100000000000000000000110100000000000000000")
}
