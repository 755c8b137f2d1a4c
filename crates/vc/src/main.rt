// The program: a job sheet on standard input, its report on standard output.
#![tactic(auto)]

use job::run::run;
use std::io;
use std::io::{Read, Write};

fn main(rt: HostRuntime) -> io::Result<()> {
    let mut sheet = Vec::new(rt.alloc());
    rt.stdin().read_to_end(&mut sheet)?;
    let report = run(rt.alloc(), &sheet)?;
    rt.stdout().write_all(&report)
}
