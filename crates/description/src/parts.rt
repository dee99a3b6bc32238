// The parts that records ask for: the shapes of their convolutions. Carries the fields of layer.rs and array.rs, with an absent `Option` as `None`.
// Document 01, 'Description' (mid, FiLM sites and widths, order of convolutions).
ghost use Rattle.std.specs.Prelude.{◌≡◌, ◌<◌, Some};
ghost use Rattle.description.specs.Parts.{conv_of, head1x1_of, head_rechannel_of, layer1x1_of, mid, mixin_of, part_of, rechannel_of, site_groups, site_of, site_width, uneven_of};
ghost use Rattle.shape.specs.Counts.{InRange};
ghost use Rattle.description.specs.Ranges.{ArrayRanges, Fits, LayerRanges};

use crate::records::{ArrayRecord, LayerRecord};
use shape::Shape;

// A slot of the list of parts: none where a 0 makes the part absent.
pub type Part = Option<Shape>;

// The first part, which is always there.
pub fn rechannel(a: ArrayRecord) -> Shape
    ensures { Some result ≡ rechannel_of a }
{
    Shape {
        ins: a.input,
        outs: a.channels,
        kernel: 1,
        dilation: 1,
        groups: 1,
        biased: false,
    }
}

// The last part, which is always there.
pub fn head_rechannel(a: ArrayRecord) -> Shape
    ensures { Some result ≡ head_rechannel_of a }
{
    Shape {
        ins: a.head_in,
        outs: a.head_size,
        kernel: a.head_kernel,
        dilation: 1,
        groups: 1,
        biased: a.head_bias,
    }
}

// The width of what a layer's conv and mixin give.
pub fn doubled(r: LayerRecord) -> usize
    requires { LayerRanges r }
    ensures { result ≡ mid r }
{
    let mode = r.mode;
    mode.input_rows(r.bottleneck)
}

fn conv(a: ArrayRecord, r: LayerRecord) -> Part
    requires { LayerRanges r }
    ensures { result ≡ conv_of a r }
{
    let outs = doubled(r);
    Some(Shape {
        ins: a.channels,
        outs,
        kernel: r.kernel,
        dilation: r.dilation,
        groups: r.conv_groups,
        biased: true,
    })
}

fn mixin(a: ArrayRecord, r: LayerRecord) -> Part
    requires { LayerRanges r }
    ensures { result ≡ mixin_of a r }
{
    let outs = doubled(r);
    Some(Shape {
        ins: a.condition,
        outs,
        kernel: 1,
        dilation: 1,
        groups: r.mixin_groups,
        biased: false,
    })
}

fn layer1x1(a: ArrayRecord, r: LayerRecord) -> Part
    ensures { result ≡ layer1x1_of a r }
{
    let groups = r.layer1x1_groups;
    if groups == 0 {
        return None;
    }
    Some(Shape {
        ins: r.bottleneck,
        outs: a.channels,
        kernel: 1,
        dilation: 1,
        groups,
        biased: r.layer1x1_bias,
    })
}

fn head1x1(a: ArrayRecord, r: LayerRecord) -> Part
    ensures { result ≡ head1x1_of a r }
{
    let width = r.head1x1_width;
    if width == 0 {
        return None;
    }
    Some(Shape {
        ins: r.bottleneck,
        outs: width,
        kernel: 1,
        dilation: 1,
        groups: r.head1x1_groups,
        biased: r.head1x1_bias,
    })
}

// The width of site 7: that of what head1x1 gives, or channels.
fn last_width(a: ArrayRecord, r: LayerRecord) -> usize
    ensures { result ≡ site_width a r 7 }
{
    let width = r.head1x1_width;
    if width == 0 {
        return a.channels;
    }
    width
}

// The width of site i. Sites and slots go by their numbers, here and above: the rules number them, and weights, histories and positions lie in that order.
fn site_width(a: ArrayRecord, r: LayerRecord, i: usize) -> usize
    requires layer_ranges { LayerRanges r }
    requires i_bound { i < 8 }
    ensures { result ≡ site_width a r i }
{
    match i {
        0 => a.channels,
        1 => doubled(r),
        2 => a.condition,
        3 => doubled(r),
        4 => doubled(r),
        5 => r.bottleneck,
        6 => a.channels,
        _ => last_width(a, r),
    }
}

// The groups of site i. Each is read at a place that stands in the code, so that a loop over the slots keeps a record's numbers in registers: read at the
// place `i`, the whole record was laid in memory again for each site, and the check of a description took three instructions in ten more.
fn site_groups(sites: [usize; 8], i: usize) -> usize
    requires { i < 8 }
    ensures { result ≡ site_groups sites i }
{
    match i {
        0 => sites[0],
        1 => sites[1],
        2 => sites[2],
        3 => sites[3],
        4 => sites[4],
        5 => sites[5],
        6 => sites[6],
        _ => sites[7],
    }
}

// The FiLM of site i: scales, and as many shifts where its bit is set.
fn site(a: ArrayRecord, r: LayerRecord, i: usize) -> Part
    requires array_ranges { ArrayRanges a }
    requires layer_ranges { LayerRanges r }
    requires i_bound { i < 8 }
    ensures { result ≡ site_of a r i }
{
    let groups = site_groups(r.sites, i);
    if groups == 0 {
        return None;
    }
    let bits = r.shift_bits;
    let outs = site_width(a, r, i) * (1 + (bits >> i) % 2);
    Some(Shape {
        ins: a.condition,
        outs,
        kernel: 1,
        dilation: 1,
        groups,
        biased: true,
    })
}

// Slot k of a layer's first four: conv, mixin, layer1x1, head1x1.
pub fn core(a: ArrayRecord, r: LayerRecord, k: usize) -> Part
    requires layer_ranges { LayerRanges r }
    requires k_bound { k < 4 }
    ensures { result ≡ part_of a r k }
{
    match k {
        0 => conv(a, r),
        1 => mixin(a, r),
        2 => layer1x1(a, r),
        _ => head1x1(a, r),
    }
}

// Slot k of a layer: conv, mixin, layer1x1, head1x1, the sites 0 to 7.
pub fn slot(a: ArrayRecord, r: LayerRecord, k: usize) -> Part
    requires array_ranges { ArrayRanges a }
    requires layer_ranges { LayerRanges r }
    requires k_bound { k < 12 }
    ensures { result ≡ part_of a r k }
{
    if k < 4 {
        return core(a, r, k);
    }
    site(a, r, k - 4)
}

// Whether the groups fail to divide both sides. Most convolutions have one group, and a division is dear where a call is one column.
fn uneven_shape(sh: Shape) -> bool
    requires { InRange sh }
    ensures { result ≡ uneven_of (Some sh) }
{
    let groups = sh.groups;
    if groups == 1 {
        return false;
    }
    (sh.ins % groups != 0) | (sh.outs % groups != 0)
}

pub fn uneven(part: Part) -> bool
    requires { Fits part }
    ensures { result ≡ uneven_of part }
{
    match part {
        None => false,
        Some(sh) => uneven_shape(sh),
    }
}
