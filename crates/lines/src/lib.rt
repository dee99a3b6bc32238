// The lines that the program `ampline` prints, written into a lent buffer: a block's columns, and the last line. Document 01, 'The program'.
// `write!` promises its text only where it answers `Ok`, and here there is no other answer: so the digits are put by hand.
#![tactic(auto)]

ghost use Rattle.std.specs.Prelude.{◌≡◌, ◌+◌, ◌*◌, ◌<◌, ◌≤◌, [], ◌∷◌, length, IfOk};
ghost use Rattle.refusal.specs.Number.{number_of};
ghost use Rattle.lines.specs.Text.{column_of, count_in, decimal_of, hex_digit, hex_of, last_of, line_of, lines_of, named_of, spaced_of, values_text};
ghost use Rattle.lines.specs.Lines.{Blank, Held, Printed, Wrote, outputs};

use refusal::Refusal;

fn hex_digit(d: u32) -> u8
    requires { d < 16 }
    ensures { result ≡ hex_digit d }
{
    b"0123456789abcdef"[d as usize]
}

// A planar block of columns to be printed: head outputs and array outputs, each with its number of rows.
#[derive(Clone, Copy)]
pub struct Columns<'a> {
    pub head: &'a [f32],
    pub heads: usize,
    pub array: &'a [f32],
    pub arrays: usize,
    pub count: usize,
}

// A lent buffer, and the place in it where the next text goes.
#[derive(Drop)]
struct Page<'a> {
    bytes: &'a mut [u8],
    at: usize,
}

impl Page<'_> {
    fn put(&mut self, byte: u8)
        requires { Blank self.old 1 }
        ensures same_reference { self.new.bytes.ghost_name ≡ self.old.bytes.ghost_name }
        ensures wrote { Wrote self.old (byte ∷ []) self.new }
    {
        self.bytes[self.at] = byte;
        self.at += 1;
    }

    fn put_text(&mut self, text: &[u8])
        requires { Blank self.old (length text.now) }
        ensures same_reference { self.new.bytes.ghost_name ≡ self.old.bytes.ghost_name }
        ensures wrote { Wrote self.old text.now self.new }
    {
        let end = self.at + text.len();
        self.bytes[self.at..end].copy_from_slice(text);
        self.at = end;
    }

    // 32 bits as 8 digits.
    fn put_hex(&mut self, bits: u32)
        requires { Blank self.old 8 }
        ensures same_reference { self.new.bytes.ghost_name ≡ self.old.bytes.ghost_name }
        ensures wrote { Wrote self.old (hex_of bits) self.new }
    {
        for i in 0..8u32 {
            self.put(hex_digit((bits >> (28 - 4 * i)) % 16));
        }
    }

    // A space and a number's bits.
    fn put_number(&mut self, x: f32)
        requires { Blank self.old 9 }
        ensures same_reference { self.new.bytes.ghost_name ≡ self.old.bytes.ghost_name }
        ensures wrote { Wrote self.old (spaced_of x) self.new }
    {
        self.put(b' ');
        self.put_hex(single::to_bits(x));
    }

    // Column t of a planar block of n columns and w rows.
    fn put_column(&mut self, planar: &[f32], t: usize, n: usize, w: usize)
        requires { Blank self.old (9 * w) × (t < n) × (w * n ≤ length planar.now) }
        ensures same_reference { self.new.bytes.ghost_name ≡ self.old.bytes.ghost_name }
        ensures wrote { Wrote self.old (values_text (column_of n t w planar.now)) self.new }
    {
        // by the number of a row, since a column's numbers lie n apart
        for c in 0..w {
            self.put_number(planar[c * n + t]);
        }
    }

    // A number in decimal.
    fn put_decimal(&mut self, n: usize)
        requires { Blank self.old (length (decimal_of n)) }
        ensures same_reference { self.new.bytes.ghost_name ≡ self.old.bytes.ghost_name }
        ensures wrote { Wrote self.old (decimal_of n) self.new }
    {
        if 10 <= n {
            self.put_decimal(n / 10);
        }
        self.put(b'0' + (n % 10) as u8);
    }

    // The line of column t.
    fn put_line(&mut self, columns: Columns<'_>, index: usize, t: usize)
        requires room { Held columns }
        requires t_lt_n { (t < columns.count) × (index < 4294967296) × Blank self.old (9 * (columns.heads + columns.arrays) + 11) }
        ensures same_reference { self.new.bytes.ghost_name ≡ self.old.bytes.ghost_name }
        ensures wrote { Wrote self.old (line_of index (outputs columns.entry t)) self.new }
    {
        self.put_decimal(index);
        self.put_column(columns.head, t, columns.count, columns.heads);
        self.put_column(columns.array, t, columns.count, columns.arrays);
        self.put(b'\n');
    }
}

// The lines of columns, the first of which has this index, from the start of the buffer; answers how many bytes they are.
pub fn put_lines(out: &mut [u8], first: usize, columns: Columns<'_>) -> usize
    requires room { Held columns }
    requires n_bound { (first + columns.count ≤ 4294967296) × (columns.count * (9 * (columns.heads + columns.arrays) + 11) ≤ length out.old) }
    ensures { Printed out.old 0 (lines_of first (outputs columns.entry) columns.entry.count) result out.new }
{
    let mut page = Page { bytes: out, at: 0 };
    for t in 0..columns.count {
        page.put_line(columns, first + t, t);
    }
    page.at
}

// A line of some text and a number, from the start of the buffer; answers how many bytes it is.
fn put_named(out: &mut [u8], text: &[u8], n: usize) -> usize
    requires { (n < 4294967296) × (length text.now + 11 ≤ length out.old) }
    ensures { Printed out.old 0 (named_of text.now n) result out.new }
{
    let mut page = Page { bytes: out, at: 0 };
    page.put_text(text);
    page.put_decimal(n);
    page.put(b'\n');
    page.at
}

// The last line, how many columns were played or why the file is refused, from the start of the buffer; answers how many bytes it is.
#[tactic(auto, unfolding(crate::specs::Text::last_of))]
pub fn put_last(out: &mut [u8], outcome: Result<usize, Refusal>) -> usize
    requires { IfOk outcome (λ count. count < 4294967296) × (19 ≤ length out.old) }
    ensures { Printed out.old 0 (last_of (number_of outcome) (count_in outcome)) result out.new }
{
    match outcome {
        Ok(count) => put_named(out, b"end ", count),
        Err(refusal) => put_named(out, b"refused ", u32::from(refusal) as usize),
    }
}
