// The vectors of the gate: replays each trace of standard input, a line of hex, and prints what comes of it, then a line of two dashes. A dash stands for the empty trace.
#![tactic(auto)]

use anyhow::anyhow;
use piles::answer;
use report::lines::REPORT_BUFFER;
use std::io::{BufRead, BufReader, Write};

// As the program replay does: a library for these lines of two programs would hold nothing else.
fn print_answer(rt: &HostRuntime, line: &str) -> anyhow::Result<()> {
    let digits = if line == "-" { "" } else { line };
    let trace = hex::decode(rt.alloc(), digits)?;
    let mut report = [0; REPORT_BUFFER];
    let Ok(length) = answer(trace.as_slice(), &mut report) else {
        return Err(anyhow!("no room for the report"));
    };
    if let Some(text) = report.get(0..length) {
        rt.stdout().write_all(text)?;
    }
    println!(rt; "--")?;
    Ok(())
}

fn main(rt: HostRuntime) -> anyhow::Result<()> {
    for line in BufReader::new(rt.alloc(), rt.stdin())?.lines(rt.alloc()) {
        print_answer(&rt, line?.as_str())?;
    }
    Ok(())
}
