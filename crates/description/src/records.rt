// The numbers of a description, read into records by value. Document 01, 'Description' (the table of places).
ghost use Rattle.std.specs.Prelude.{◌≡◌, ◌+◌, ◌<◌, ◌≤◌, get_or, length};
ghost use Rattle.description.specs.Numbers.{head_length, record_at, record_length};
ghost use Rattle.description.specs.Records.{activation_of, array_of, layer_of, mode_of, sites_of};

use crate::numbers::{HEAD_LENGTH, RECORD_LENGTH};
use activation::Activation;
use gating::Mode;

// The array's eight numbers.
#[derive(Clone, Copy)]
pub struct ArrayRecord {
    pub input: usize,
    pub condition: usize,
    pub channels: usize,
    pub head_in: usize,
    pub head_size: usize,
    pub head_kernel: usize,
    pub head_bias: bool,
    pub layers: usize,
}

// A layer's twenty-four numbers; an activation with its slope is one value.
#[derive(Clone, Copy)]
pub struct LayerRecord {
    pub bottleneck: usize,
    pub kernel: usize,
    pub dilation: usize,
    pub conv_groups: usize,
    pub mixin_groups: usize,
    pub mode: Mode,
    pub primary: Activation,
    pub secondary: Activation,
    pub layer1x1_groups: usize,
    pub layer1x1_bias: bool,
    pub head1x1_width: usize,
    pub head1x1_groups: usize,
    pub head1x1_bias: bool,
    /// The groups of the FiLM sites 0 to 7, 0 where a site is absent.
    pub sites: [usize; 8],
    pub shift_bits: usize,
}

// The number at a place.
fn number(description: &[u32], place: usize) -> usize
    requires { place < length description.now }
    ensures { result ≡ get_or description.now place 0 }
{
    description[place] as usize
}

pub fn read_array(description: &[u32]) -> ArrayRecord
    requires { head_length ≤ length description.now }
    ensures { result ≡ array_of description.now }
{
    ArrayRecord {
        input: number(description, 0),
        condition: number(description, 1),
        channels: number(description, 2),
        head_in: number(description, 3),
        head_size: number(description, 4),
        head_kernel: number(description, 5),
        head_bias: number(description, 6) == 1,
        layers: number(description, 7),
    }
}

// Whatever number stands there, as `mode_of` reads it: that it is one of the three is told before, by the table of limits, so there is no error to answer.
fn read_mode(code: u32) -> Mode
    ensures { result ≡ mode_of code }
{
    match code {
        0 => Mode::None,
        1 => Mode::Gated,
        _ => Mode::Blended,
    }
}

// Only code 3 has a slope. Of any number, as `read_mode`.
fn read_activation(code: u32, slope: u32) -> Activation
    ensures { result ≡ activation_of code slope }
{
    match code {
        0 => Activation::Tanh,
        1 => Activation::Relu,
        2 => Activation::Sigmoid,
        _ => Activation::LeakyRelu(single::from_bits(slope)),
    }
}

fn read_sites(description: &[u32], at: usize) -> [usize; 8]
    requires { at + 8 ≤ length description.now }
    ensures { result ≡ sites_of description.now at }
{
    [
        number(description, at),
        number(description, at + 1),
        number(description, at + 2),
        number(description, at + 3),
        number(description, at + 4),
        number(description, at + 5),
        number(description, at + 6),
        number(description, at + 7),
    ]
}

// Layer l's record, whatever its numbers are.
pub fn layer_record(description: &[u32], l: usize) -> LayerRecord
    requires { record_at l + record_length ≤ length description.now }
    ensures { result ≡ layer_of description.now l }
{
    let at = HEAD_LENGTH + RECORD_LENGTH * l;
    let mode = read_mode(description[at + 5]);
    let primary = read_activation(description[at + 6], description[at + 7]);
    let secondary = read_activation(description[at + 8], description[at + 9]);
    let sites = read_sites(description, at + 15);
    LayerRecord {
        bottleneck: number(description, at),
        kernel: number(description, at + 1),
        dilation: number(description, at + 2),
        conv_groups: number(description, at + 3),
        mixin_groups: number(description, at + 4),
        mode,
        primary,
        secondary,
        layer1x1_groups: number(description, at + 10),
        layer1x1_bias: number(description, at + 11) == 1,
        head1x1_width: number(description, at + 12),
        head1x1_groups: number(description, at + 13),
        head1x1_bias: number(description, at + 14) == 1,
        sites,
        shift_bits: number(description, at + 23),
    }
}
