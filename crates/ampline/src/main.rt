// The program: plays standard input and prints. Its stdin in the gate is document 01's case A. Document 01, 'The program'.
#![tactic(auto)]

use std::io;

fn main(rt: HostRuntime) -> io::Result<()> {
    player::play(&mut rt.stdin(), &mut rt.stdout())
}
