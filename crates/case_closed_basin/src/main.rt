// A closed basin: walls all round, with a shoal.
// It is a program of its own and not a test, since each has its own standard input and output.
#![tactic(auto)]

use std::io;

fn main(rt: HostRuntime) -> io::Result<()> {
    program::run(&rt)
}
