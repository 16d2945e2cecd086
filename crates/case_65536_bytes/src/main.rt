// 65,536 bytes: one byte more than is read, which is a 7 whatever stands in it.
// It is a program of its own and not a test, since each has its own standard input and output.
#![tactic(auto)]

use std::io;

fn main(rt: HostRuntime) -> io::Result<()> {
    program::run(&rt)
}
