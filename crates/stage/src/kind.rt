// The stages of an array by what they do. Document 01, 'Plans'.
ghost use Rattle.std.specs.Prelude.{◌≡◌};
ghost use Rattle.stage.specs.Kind.{stage_of};

#[derive(Clone, Copy)]
pub enum Stage {
    Rechannel,
    Layer(usize),
    HeadRechannel,
}

// Stage k of an array of so many layers: stage 0 is the rechannel, 1 to L are the layers, what comes after them is the head rechannel.
pub fn stage_at(k: usize, layers: usize) -> Stage
    ensures { result ≡ stage_of k layers }
{
    if k == 0 {
        return Stage::Rechannel;
    }
    let l = k - 1;
    if l < layers {
        return Stage::Layer(l);
    }
    Stage::HeadRechannel
}
