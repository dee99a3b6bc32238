// The span's columns into a layer's regions of scratch, and back. Carries what array.rs hands from layer to layer by whole vectors.
// Document 01, 'The recurrence' (Planar).
ghost use Rattle.std.specs.Prelude.{◌+◌, ◌*◌, ◌≤◌, ◌≡◌, length};
ghost use Rattle.description.specs.Records.{array_of};
ghost use Rattle.stage.specs.Copies.{CopyFits, Brought, HandedOn};

use crate::span::Span;
use description::records::ArrayRecord;

// Signal from region 0 to 2, condition to 3, accumulator from region 1 to 4.
pub fn bring(scratch: &mut [f32], condition: &[f32], a: ArrayRecord, span: Span)
    requires copy_fits { CopyFits a span (length scratch.old) }
    requires condition_len { length condition.now ≡ a.condition * span.n }
    ensures { Brought a span condition.now scratch.old scratch.new }
{
    let size = span.size;
    let n = span.n;
    let from = span.from;
    let count = span.count;
    let channels = a.channels;
    let width = a.condition;
    let head = a.head_in;
    carry::columns_within(scratch, 2 * size, count, from, n, channels, count);
    carry::columns(scratch, condition, 3 * size, count, from, n, width, count);
    carry::columns_within(scratch, 4 * size, count, size + from, n, head, count);
}

// Signal from `result` to region 0, accumulator from region 4 to 1.
pub fn hand_on(scratch: &mut [f32], a: ArrayRecord, span: Span, res: usize)
    requires copy_fits { CopyFits a span (length scratch.old) }
    requires size_bound { (2 * span.size ≤ res) × (res + span.size ≤ 16 * span.size) }
    ensures { HandedOn a span res scratch.old scratch.new }
{
    let size = span.size;
    let n = span.n;
    let from = span.from;
    let count = span.count;
    let channels = a.channels;
    let head = a.head_in;
    carry::columns_within(scratch, from, n, res, count, channels, count);
    carry::columns_within(scratch, size + from, n, 4 * size, count, head, count);
}
