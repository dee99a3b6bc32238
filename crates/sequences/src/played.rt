// The two layers that are played, in pieces: by single columns, blocks and planned blocks, each after a call that has to be refused.
ghost use Rattle.std.specs.Prelude.{◌≡◌, ◌+◌, ◌*◌, ◌<◌, ◌≤◌, length};

use crate::cases::two_layers;
use crate::plans::Plan;
use crate::signal::{COLUMNS, keep, row, same, two_rows};
use array::{Buffers, Sources};
use refusal::Refusal;

// The layers, what they keep from call to call, and what has come out of them.
#[derive(Drop)]
pub struct Play {
    description: [u32; 56],
    weights: [f32; 130],
    histories: [f32; 48],
    positions: [u32; 13],
    head: [f32; 128],
    array: [f32; 128],
}

// A call's n columns: two channels of each kind, planar.
#[derive(Drop)]
struct Piece {
    n: usize,
    input: [f32; 128],
    condition: [f32; 128],
    head_in: [f32; 128],
    head_out: [f32; 128],
    array_out: [f32; 128],
}

// How a piece is played: by a single column, by a block of so many columns as it names, or by a block in the turns of a plan.
#[derive(Clone, Copy)]
enum Call<'a> {
    Column,
    Block(usize),
    Planned(&'a [u32]),
}

impl Piece {
    // The n columns from `column` on.
    fn of_signal(column: usize, n: usize) -> Piece
        requires { column + n ≤ 64 }
        ensures { result.n ≡ n }
    {
        let mut piece = Piece {
            n,
            input: [0.0; 128],
            condition: [0.0; 128],
            head_in: [0.0; 128],
            head_out: [0.0; 128],
            array_out: [0.0; 128],
        };
        two_rows(&mut piece.input[..2 * n], column, 0);
        two_rows(&mut piece.condition[..2 * n], column, 2);
        two_rows(&mut piece.head_in[..2 * n], column, 4);
        piece
    }
}

impl Play {
    fn from_reset() -> Result<Play, Refusal> {
        let mut play = Play {
            description: two_layers(),
            weights: [0.0; 130],
            histories: [0.0; 48],
            positions: [0; 13],
            head: [0.0; 128],
            array: [0.0; 128],
        };
        row(&mut play.weights, 0, 9);
        reset::reset(&play.description, &mut play.histories, &mut play.positions)?;
        Ok(play)
    }

    // The piece by one call.
    fn call(&mut self, piece: &mut Piece, call: Call<'_>) -> Result<(), Refusal>
        requires { piece.old.n ≤ 64 }
        ensures { piece.new.n ≡ piece.old.n }
    {
        let mut scratch = [0.0; 4096];
        let n = piece.n;
        let len = 2 * n;
        let head_out = &mut piece.head_out[..];
        let array_out = &mut piece.array_out[..];
        let sources = Sources {
            description: &self.description,
            weights: &self.weights,
            input: &piece.input[..len],
            condition: &piece.condition[..len],
            head_in: &piece.head_in[..len],
        };
        let mut buffers = Buffers {
            histories: &mut self.histories,
            positions: &mut self.positions,
            head_out: &mut head_out[..len],
            array_out: &mut array_out[..len],
        };
        match call {
            Call::Column => calls::column(&sources, &mut buffers, &mut scratch),
            Call::Block(named) => calls::block(&sources, &mut buffers, &mut scratch, named),
            Call::Planned(plan) => calls::planned(&sources, &mut buffers, &mut scratch, n, plan),
        }
    }

    // A block of one column more than is lent, which is refused, and the block; whether both were answered so.
    fn plain(&mut self, piece: &mut Piece) -> bool
        requires { piece.old.n ≤ 64 }
        ensures { piece.new.n ≡ piece.old.n }
    {
        let n = piece.n;
        if self.call(piece, Call::Block(n + 1)) != Err(Refusal::BufferLength) {
            return false;
        }
        if n == 1 {
            return self.call(piece, Call::Column).is_ok();
        }
        self.call(piece, Call::Block(n)).is_ok()
    }

    // A call with the description for a plan, which is refused, and the call with its plan.
    fn by_plan(&mut self, piece: &mut Piece, plan: Plan) -> bool
        requires { (0 < piece.old.n) × (piece.old.n ≤ 64) }
        ensures { piece.new.n ≡ piece.old.n }
    {
        let mut turns = [0; 512];
        let len = 2 * plan.turns(piece.n);
        plan.write(&mut turns[..len], piece.n);
        if self.call(piece, Call::Planned(&two_layers())) != Err(Refusal::Plan) {
            return false;
        }
        self.call(piece, Call::Planned(&turns[..len])).is_ok()
    }

    // The n columns from `column` on; whether each call was answered as it has to be.
    fn hear(&mut self, column: usize, n: usize, plan: Option<Plan>) -> bool
        requires { (0 < n) × (column + n ≤ 64) }
    {
        let mut piece = Piece::of_signal(column, n);
        let heard = match plan {
            Some(plan) => self.by_plan(&mut piece, plan),
            None => self.plain(&mut piece),
        };
        keep(&mut self.head, &piece.head_out[..2 * n], column);
        keep(&mut self.array, &piece.array_out[..2 * n], column);
        heard
    }

    // Whether what came out and what is kept have the same bits.
    pub fn same(&self, other: &Play) -> bool {
        same(&self.head, &other.head)
            && same(&self.array, &other.array)
            && same(&self.histories, &other.histories)
            && self.positions == other.positions
    }
}

// All columns from a reset in pieces of the cut's sizes, over and over; with plans, every fourth piece is plain. `None` where a call was not answered as
// it has to be.
pub fn run(cut: &[usize], with_plans: bool) -> Option<Play>
    requires { 0 < length cut.now }
{
    let mut play = Play::from_reset().ok()?;
    let mut column: usize = 0;
    let mut i: usize = 0;
    // pieces have sizes of their own, so the columns that are left are counted
    while column < COLUMNS {
        let n = cut[i % cut.len()].clamp(1, COLUMNS - column);
        let plan = if with_plans { Plan::of_piece(i) } else { None };
        if !play.hear(column, n, plan) {
            return None;
        }
        column += n;
        i += 1;
    }
    Some(play)
}
