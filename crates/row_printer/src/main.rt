// The row printer of document 01: reads a row from standard input and prints what the left view shows of it.
#![tactic(auto)]

use std::io;

fn main(rt: HostRuntime) -> io::Result<()> {
    rowprint::run(&mut rt.reader(), &mut io::writer(&rt))
}
