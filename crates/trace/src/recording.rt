// The test of a whole trace, and a trace written from frames.
ghost use Rattle.std.specs.Prelude.{◌≡◌, ℕ, ◌*◌, ◌%◌, ◌<◌, ◌≤◌, [], ◌∷◌, ◌++◌, length};
ghost use Rattle.trace.specs.Frames.{frames_of, trace_bytes, Wrote};
ghost use Rattle.trace.specs.Recordings.{recorded, recorded_pile, recording_of, at_frame};

use crate::frame::{Frame, Frames, Pile};
use heap::fault::{Cause, Fault, Kind};

// The longest trace, in bytes.
pub const LONGEST_TRACE: usize = 32766;

// What a frame's own test found, as the answer for the trace.
fn at_frame<T>(found: Result<T, Cause>, place: u32) -> Result<T, Fault>
    ensures { result ≡ at_frame place found }
{
    found.map_err(|cause| Fault::new(cause, Kind::Replay, place))
}

// The head, then the frames behind it, numbered from 1 on.
fn check_frames(trace: &[u8]) -> Result<Pile, Fault>
    requires { length trace.now ≤ 32766 }
    ensures { result ≡ recorded_pile (recording_of (frames_of trace.now)) }
{
    let mut frames = Frames::new(trace);
    let head = at_frame(frames.next().ok_or(Cause::TraceLength), 0)?;
    let pile = at_frame(head.pile(), 0)?;
    for (frame, place) in frames.zip(1..) {
        at_frame(frame.action(), place)?;
    }
    Ok(pile)
}

// Tests a trace: its length, then frame after frame. Answers the pile that its head names, or the first refusal.
//
// `whole`: where the trace is whole frames, its frames written again are the trace.
pub fn check_trace(trace: &[u8]) -> Result<Pile, Fault>
    ensures pile { result ≡ recorded_pile (recorded trace.now) }
    ensures whole { length trace.now % 6 ≡ 0 → trace_bytes (frames_of trace.now) ≡ trace.now }
{
    if trace.len() > LONGEST_TRACE || trace.len() % 6 != 0 {
        return Err(Fault::new(Cause::TraceLength, Kind::Replay, 0));
    }
    check_frames(trace)
}

// Writes frames one after another, as a trace that reads as these frames again. Nothing is written where the buffer is too short.
pub fn write_trace(frames: &[Frame], out: &mut [u8]) -> Option<usize>
    ensures { Wrote frames.now out.old out.new result }
{
    if out.len() / 6 < frames.len() {
        return None;
    }
    // By index: tried with chunks_exact_mut and with parts split off in turn, and of the whole buffer the proof did not close.
    for (i, frame) in frames.iter().enumerate() {
        let bytes = frame.to_bytes();
        out[6 * i..6 * i + 6].copy_from_slice(&bytes);
    }
    Some(6 * frames.len())
}
