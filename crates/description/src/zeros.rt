// The zero rules of a layer whose numbers start at place `at`. Document 01, 'Description': "Nothing else is missing by zero."
// A test is one expression without a branch.
ghost use Rattle.std.specs.Prelude.{◌≡◌, ◌+◌, ◌≤◌, length};
ghost use Rattle.description.specs.Numbers.{record_length};
ghost use Rattle.description.specs.ZeroRules.{breaks_activations, breaks_parts, breaks_sites, breaks_zero_rule};

// A slope is 0 unless its code is 3; mode None has no secondary.
fn breaks_activations(description: &[u32], at: usize) -> bool
    requires { at + record_length ≤ length description.now }
    ensures { result ≡ breaks_activations description.now at }
{
    let mode = description[at + 5];
    let primary = description[at + 6];
    let slope = description[at + 7];
    let secondary = description[at + 8];
    let other_slope = description[at + 9];
    (primary != 3) & (slope != 0)
        | (secondary != 3) & (other_slope != 0)
        | (mode == 0) & ((secondary != 0) | (other_slope != 0))
}

// An absent part has 0 in its other places; a head1x1 that is there has groups.
fn breaks_parts(description: &[u32], at: usize) -> bool
    requires { at + record_length ≤ length description.now }
    ensures { result ≡ breaks_parts description.now at }
{
    let layer1x1 = description[at + 10];
    let bias = description[at + 11];
    let width = description[at + 12];
    let groups = description[at + 13];
    let head_bias = description[at + 14];
    (layer1x1 == 0) & (bias != 0)
        | (width == 0) & ((groups != 0) | (head_bias != 0))
        | (width != 0) & (groups == 0)
}

// An absent site has shift bit 0.
fn breaks_sites(description: &[u32], at: usize) -> bool
    requires { at + record_length ≤ length description.now }
    ensures { result ≡ breaks_sites description.now at }
{
    let bits = description[at + 23];
    let mut broken = false;
    for (i, groups) in description[at + 15..at + 23].iter().enumerate() {
        broken = broken | (*groups == 0) & ((bits >> i) % 2 == 1);
    }
    broken
}

pub fn breaks_zero_rule(description: &[u32], at: usize) -> bool
    requires { at + record_length ≤ length description.now }
    ensures { result ≡ breaks_zero_rule description.now at }
{
    breaks_activations(description, at)
        | breaks_parts(description, at)
        | breaks_sites(description, at)
}
