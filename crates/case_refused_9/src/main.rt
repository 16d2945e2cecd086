// Refusal 9: 1,000 milliseconds, in a record whose tag 8 stands first; its depth of 999 would be a 4, which comes later.
// It is a program of its own and not a test, since each has its own standard input and output.
#![tactic(auto)]

use std::io;

fn main(rt: HostRuntime) -> io::Result<()> {
    program::run(&rt)
}
