// f32 as document 01 uses it: a pattern of 32 bits to its value, with every NaN pattern as the one NaN, and a value to its pattern, with NaN as
// 7fc00000. The toolchain's own two are undefined at a NaN, so both ask here first. Document 01, 'The layer array' (NaN as one value) and 'The program'.
#![tactic(auto)]

ghost use Rattle.std.specs.Prelude.{◌≡◌};
ghost use Rattle.std.specs.Float.{binary32, nan};
ghost use Rattle.std.specs.Float.Ieee.{of_bits, to_bits};

// The one NaN.
pub fn not_a_number() -> f32
    ensures { result ≡ nan }
{
    0.0 / 0.0
}

// The value of a pattern.
pub fn from_bits(bits: u32) -> f32
    ensures { result ≡ of_bits binary32 bits }
{
    if 0x7f80_0000 < bits % 0x8000_0000 {
        return not_a_number();
    }
    f32::from_bits(bits)
}

// The pattern of a value; 7fc00000 for NaN.
pub fn to_bits(x: f32) -> u32
    ensures { result ≡ to_bits binary32 x }
{
    if x != x {
        return 0x7fc0_0000;
    }
    f32::to_bits(x)
}
