// The listing program: lists the lattice that standard input holds. Its stored run is document 01's example.
#![tactic(auto)]

use std::io;

fn main(rt: HostRuntime) -> io::Result<()> {
    printer::run(&rt)
}
