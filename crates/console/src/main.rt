// The console: a draft typed in, mended and listed by commands, one a line.
#![tactic(auto)]

mod answer;
mod command;
mod session;

use anyhow::{anyhow, bail};
use session::talk;
use std::env;
use std::fs::File;
use std::io::BufReader;

// Commands come from the file that is named, or else from standard input.
fn run(rt: &HostRuntime) -> anyhow::Result<()> {
    let mut args = env::args(rt)?;
    let _program = args.next();
    let Some(path) = args.next() else {
        return talk(rt, rt.alloc(), BufReader::new(rt.alloc(), rt.stdin())?);
    };
    if args.next().is_some() {
        bail!("at most one file can be named");
    }
    let file = File::open(rt, path.as_str()).map_err(|e| anyhow!("{path}: {e}"))?;
    talk(rt, rt.alloc(), BufReader::new(rt.alloc(), file)?)
}

fn main(rt: HostRuntime) -> anyhow::Result<()> {
    run(&rt)
}
