// The row printer on many inputs: for each file that an argument names, the name and then what is printed for it.
#![tactic(auto)]

use std::rt::Files;
use std::{env, fs, io};

// Names a file that cannot be opened on standard error, with the system's reason but not its number.
fn say_unopened<R: Eprint + Alloc>(rt: &R, name: &str, error: &io::Error) -> io::Result<()> {
    let message = format!(in rt.alloc(); "{error}")?;
    let text = message.as_str();
    let reason = text
        .split_once(" (os error ")
        .map_or(text, |(reason, _)| reason);
    eprintln!(rt; "{name}: {reason}")
}

fn print_case<R: Files + Print + Eprint + Alloc>(rt: &R, name: &str) -> io::Result<()> {
    match fs::open(rt, name) {
        Ok(mut file) => {
            println!(rt; "{name}:")?;
            rowprint::run(&mut file, &mut io::writer(rt))
        }
        Err(error) => say_unopened(rt, name, &error),
    }
}

fn main(rt: HostRuntime) -> io::Result<()> {
    for name in env::args(&rt)?.skip(1) {
        print_case(&rt, name.as_str())?;
    }
    Ok(())
}
