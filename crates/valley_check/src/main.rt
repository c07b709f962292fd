// The same program as `valley`, run with the argument `check`: a valley on standard input, with totals of which one is wrong.

#![tactic(auto)]

use std::io;

fn main(rt: HostRuntime) -> io::Result<()> {
    survey::run(&rt)
}
