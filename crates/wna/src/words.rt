// Numbers from bytes, little-endian. Document 01, 'The program'.
ghost use Rattle.std.specs.Prelude.{◌≡◌, ◌+◌, ◌*◌, ◌<◌, ◌≤◌, ℕ, get_or, length};
ghost use Rattle.wna.specs.Words.{float_at, floats_of, half_at, word_at, words_of};

// 16 bits at place `at`.
pub fn half(bytes: &[u8], at: usize) -> u16
    requires { at + 2 ≤ length bytes.now }
    ensures { result ≡ half_at bytes.now at }
{
    u16::from_le_bytes([bytes[at], bytes[at + 1]])
}

// 32 bits at place `at`.
pub fn word(bytes: &[u8], at: usize) -> u32
    requires { at + 4 ≤ length bytes.now }
    ensures { result ≡ word_at bytes.now at }
{
    u32::from_le_bytes([bytes[at], bytes[at + 1], bytes[at + 2], bytes[at + 3]])
}

// A float at place `at`, by its bits.
pub fn float(bytes: &[u8], at: usize) -> f32
    requires { at + 4 ≤ length bytes.now }
    ensures { result ≡ float_at bytes.now at }
{
    single::from_bits(word(bytes, at))
}

// Each place of the slice by a rule for its index. (After `iter_mut().enumerate()` a proof would know nothing of what was written.)
pub(crate) fn fill_by<T: Copy, F: Fn(usize) -> T>(out: &mut [T], rule: F)
    requires { (i : ℕ) → i < length out.old → F.pre rule i }
    ensures { (d : T) (i : ℕ) → i < length out.old → F.post rule i (get_or out.new i d) }
{
    for i in 0..out.len() {
        out[i] = rule(i);
    }
}

// Every number of the slice, from the first byte on.
pub fn unpack_numbers(numbers: &mut [u32], bytes: &[u8])
    requires { 4 * length numbers.old ≤ length bytes.now }
    ensures { numbers.new ≡ words_of (length numbers.old) bytes.now }
{
    fill_by(numbers, |i| word(bytes, 4 * i));
}

// Every float of the slice, from the first byte on.
pub fn unpack_floats(floats: &mut [f32], bytes: &[u8])
    requires { 4 * length floats.old ≤ length bytes.now }
    ensures { floats.new ≡ floats_of (length floats.old) bytes.now }
{
    fill_by(floats, |i| float(bytes, 4 * i));
}
