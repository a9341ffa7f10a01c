// The program's arguments, and the trace on standard input.
use anyhow::anyhow;
use std::env;
use std::io::{BufRead, BufReader, Read};
use trace::digits::read_digits;
use trace::recording::LONGEST_TRACE;

// How the trace is given, or that help is asked for.
#[derive(Clone, Copy, PartialEq, Eq, Debug)]
pub enum Form {
    Raw,
    Hex,
    Help,
}

// What the arguments ask for.
pub fn asked_form(rt: &HostRuntime) -> anyhow::Result<Form> {
    let mut form = Form::Raw;
    for arg in env::args(rt)?.skip(1) {
        match arg.as_str() {
            "--hex" => form = Form::Hex,
            "--help" => return Ok(Form::Help),
            other => {
                return Err(anyhow!("unknown option {other}; --help tells the options"));
            }
        }
    }
    Ok(form)
}

// All bytes, as far as is needed to tell a trace that is too long.
pub fn read_raw(rt: &HostRuntime) -> anyhow::Result<Vec<u8>> {
    let mut trace = Vec::new(rt.alloc());
    let most = LONGEST_TRACE as u64 + 1;
    rt.stdin().take(most).read_to_end(&mut trace)?;
    Ok(trace)
}

// A line without its comment and the blanks around.
fn content(line: &str) -> &str {
    line.split_once('#').map_or(line, |(text, _)| text).trim()
}

// The frames of hex text, one a line. Every line is tested, and no more is kept than tells a trace that is too long.
pub fn read_hex(rt: &HostRuntime) -> anyhow::Result<Vec<u8>> {
    let mut trace = Vec::new(rt.alloc());
    for (number, line) in (1u64..).zip(BufReader::new(rt.alloc(), rt.stdin())?.lines(rt.alloc())) {
        let line = line?;
        let text = content(line.as_str());
        if text.is_empty() {
            continue;
        }
        let Some(frame) = read_digits(text.as_bytes()) else {
            return Err(anyhow!("line {number}: a frame is twelve hex digits"));
        };
        if trace.len() <= LONGEST_TRACE {
            trace.extend_from_slice(&frame)?;
        }
    }
    Ok(trace)
}
