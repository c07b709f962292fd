// Tells the riding range, its check and the best route of the valley on standard input; with the argument `check`, the verdict on totals that stand behind it.

#![tactic(auto)]

use std::io;

fn main(rt: HostRuntime) -> io::Result<()> {
    survey::run(&rt)
}
