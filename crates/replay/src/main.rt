// Replays a recorded trace: a trace on standard input, its report on standard output.
#![tactic(auto)]

mod input;

use anyhow::anyhow;
use input::{Form, asked_form, read_hex, read_raw};
use piles::answer;
use report::lines::REPORT_BUFFER;
use std::io::Write;

const HELP: &str = "replay: runs a unit's recorded allocations on one pile and prints the report

  replay < TRACE          the trace as raw bytes, six to a frame
  replay --hex < TEXT     the trace as text, a frame a line: twelve hex digits;
                          blank lines, and comments from # on, are passed over
  replay --help           this page

A frame is kind (1 byte), id (1) and number (4, highest byte first):
  0 head: number is the pile, 1 to 3    1 allocate number bytes for id
  2 free id                             3 fill the block of id with the byte number
  4 relief
The first frame is the head, and no other is. Numbers below are in hex.

The report:
  10 pile, frames, granted, freed, refused
  11 peak blocks and bytes, blocks and bytes at the end
  12 kind, refusals of that kind        13 first refused frame, cause, kind, down, place
  1F cause, frame                       alone: the trace was refused, and no frame ran
";

fn run(rt: &HostRuntime) -> anyhow::Result<()> {
    let trace = match asked_form(rt)? {
        Form::Raw => read_raw(rt)?,
        Form::Hex => read_hex(rt)?,
        Form::Help => {
            rt.print(HELP)?;
            return Ok(());
        }
    };
    let mut report = [0; REPORT_BUFFER];
    let Ok(length) = answer(trace.as_slice(), &mut report) else {
        return Err(anyhow!("no room for the report"));
    };
    if let Some(text) = report.get(0..length) {
        rt.stdout().write_all(text)?;
    }
    Ok(())
}

fn main(rt: HostRuntime) -> anyhow::Result<()> {
    run(&rt)
}
