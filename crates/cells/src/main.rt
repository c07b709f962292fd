// Runs the worked examples and limits of the paper on standard input against the crates, and prints the report.

#![tactic(auto)]

use std::io;

fn main(rt: HostRuntime) -> io::Result<()> {
    vectors::run(&rt)
}
