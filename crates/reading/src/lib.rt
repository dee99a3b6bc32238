// Reading into a buffer that may be longer than what is left of the input.
#![tactic(auto)]

ghost use Rattle.std.specs.Prelude.{ℕ, List, ◌<◌, length, take, IfOk, OnErr};
ghost use Rattle.std.specs.Io.{ReadsAtMost};
ghost use Rattle.std.specs.Io.KnownBytes.{Consumes, IsAtEnd};

use std::io;
use std::io::Read;

// Reads until `buf` is full or the input ends, and answers how many bytes it put at the start of `buf`. On an empty `buf` it makes no call.
pub fn read_full<R: Read>(reader: &mut R, buf: &mut [u8]) -> io::Result<usize>
    ensures bound { ReadsAtMost result buf.new }
    ensures bytes { IfOk result (λ n. Consumes (R.remaining reader.old) (R.remaining reader.new) (take n buf.new)) }
    ensures end { IfOk result (λ n. n < length buf.new → IsAtEnd (R.remaining reader.new)) }
    ensures err { OnErr result ((bs : List ℕ) × Consumes (R.remaining reader.old) (R.remaining reader.new) bs) }
{
    let mut done = 0;
    // By a `while`: std's `read_exact` says little after a short read, and the steps have no fixed size, so no iterator goes over them.
    while done < buf.len() {
        let n = reader.read(&mut buf[done..])?;
        if n == 0 {
            break;
        }
        done += n;
    }
    Ok(done)
}
