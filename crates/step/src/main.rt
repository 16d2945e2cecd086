// The step program (worked example 10 of 01): a record on standard input, one step without inflow, and what is left on standard
// output.
#![tactic(auto)]

use std::io;

fn main(rt: HostRuntime) -> io::Result<()> {
    program::run(&rt)
}
