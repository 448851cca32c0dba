// The console: replays a script of calls and prints every answer.
#![tactic(auto)]

mod answers;
mod commands;
mod words;

use answers::{Refused, perform};
use anyhow::anyhow;
use commands::parse;
use std::alloc::Global;
use std::env;
use std::fs::File;
use std::io::{BufRead, BufReader, BufWriter, Read, Write};
use std::process::ExitCode;
use words::Unread;

fn main(rt: HostRuntime) -> ExitCode {
    match run(&rt) {
        Ok(()) => ExitCode::SUCCESS,
        Err(error) => {
            let _ = eprintln!(rt; "golimeruth: {error}");
            ExitCode::FAILURE
        }
    }
}

// The script is the file named as the first argument, else standard input.
fn run(rt: &HostRuntime) -> anyhow::Result<()> {
    let mut arguments = env::args(rt)?;
    let _ = arguments.next();
    let Some(path) = arguments.next() else {
        return replay(
            rt,
            "standard input",
            BufReader::new(rt.alloc(), rt.stdin())?,
        );
    };
    let file = File::open(rt, path.as_str()).map_err(|error| anyhow!("{path}: {error}"))?;
    replay(rt, path.as_str(), BufReader::new(rt.alloc(), file)?)
}

fn replay<R: Read + Drop>(
    rt: &HostRuntime,
    name: &str,
    mut script: BufReader<R>,
) -> anyhow::Result<()> {
    let mut out = BufWriter::new(rt.alloc(), rt.stdout())?;
    let mut line = Vec::new(rt.alloc());
    // an input need not end, so the lines are counted
    for number in 1..u64::MAX {
        line.clear();
        // a `match`, since `map_err` would make room for an error at every line
        match script.read_until(b'\n', &mut line) {
            Ok(0) => break,
            Ok(_) => answer(rt.alloc(), number, line.as_slice(), &mut out)?,
            Err(error) => return Err(anyhow!("{name}: {error}")),
        }
    }
    out.flush()?;
    Ok(())
}

fn answer<W: Write>(heap: Global, number: u64, line: &[u8], out: &mut W) -> anyhow::Result<()> {
    match parse(heap, without_end(line)) {
        Ok(None) => {}
        Ok(Some(command)) => match perform(command) {
            Ok(answer) => writeln!(out, "{answer}")?,
            Err(refusal) => writeln!(out, "{}", Refused(refusal))?,
        },
        Err(Unread::Slip(slip)) => writeln!(out, "bad line {number}: {slip}")?,
        Err(Unread::Memory(error)) => return Err(error.into()),
    }
    Ok(())
}

// The line without the end that the script's editor gave it.
fn without_end(line: &[u8]) -> &[u8] {
    match line {
        [text @ .., b'\r', b'\n'] | [text @ .., b'\n'] => text,
        _ => line,
    }
}
