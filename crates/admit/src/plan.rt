// Whether a plan keeps its rule. Document 01, 'Plans' and 'Refusal numbers' 9.
ghost use Rattle.std.specs.Prelude.{◌≡◌, cond, ◌≤◌, ◌<◌, length};
ghost use Rattle.turns.specs.Plan.{all_are, allows, keeps_from, keeps_rule, limit, taken};

// The stages of a description with 24 layers.
pub const MOST_STAGES: usize = 26;

// How far a stage may get: stage 0 to n, any other as far as the stage before it.
fn furthest(reached: &[usize], n: usize, stage: usize) -> usize
    requires { stage < length reached.now }
    ensures { result ≡ limit n reached.now stage }
{
    if stage == 0 {
        return n;
    }
    reached[stage - 1]
}

// One turn: taken where it is allowed, else nothing is stored. Its last column, at + last, has to lie below the limit; that is asked of a difference,
// so that no sum wraps, whatever the count.
fn turn(reached: &mut [usize], n: usize, stage: usize, count: usize) -> bool
    ensures value { result ≡ allows (length reached.old) n reached.old stage count }
    ensures reached_after { reached.new ≡ cond result (taken reached.old stage count) reached.old }
{
    if reached.len() <= stage {
        return false;
    }
    if count < 1 {
        return false;
    }
    let most = furthest(reached, n, stage);
    let at = reached[stage];
    if most < at {
        return false;
    }
    let last = count - 1;
    if most - at <= last {
        return false;
    }
    reached[stage] = at + count;
    true
}

// Whether all stages stand at n.
fn all_at(reached: &[usize], n: usize) -> bool
    ensures { result ≡ all_are n reached.now }
{
    reached.iter().all(|at| *at == n)
}

// The turns of a plan, from where the stages have reached.
fn walk(plan: &[u32], reached: &mut [usize], n: usize) -> bool
    ensures { result ≡ keeps_from (length reached.old) n reached.old plan.now }
{
    if plan.len() % 2 != 0 {
        return false;
    }
    for pair in plan.chunks_exact(2) {
        if !turn(reached, n, pair[0] as usize, pair[1] as usize) {
            return false;
        }
    }
    all_at(reached, n)
}

// A plan for n columns and that many stages.
pub fn keeps_rule(plan: &[u32], stages: usize, n: usize) -> bool
    requires { stages ≤ 26 }
    ensures { result ≡ keeps_rule stages n plan.now }
{
    let mut reached = [0; MOST_STAGES];
    walk(plan, &mut reached[0..stages], n)
}
