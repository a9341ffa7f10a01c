// The report of a tally, in lines of upper-case hex.
ghost use Rattle.std.specs.Prelude.{◌≡◌, ◌+◌, ◌<◌, ◌≤◌, [], ◌∷◌, length};
ghost use Rattle.std.specs.List.{flat_map};
ghost use Rattle.report.specs.Lines.{digit as hex_digit, hex_byte, hex_field, line, kind_lines, first_line, report_text, refusal_text, checked_buffer, Writes};
ghost use Rattle.report.specs.Pages.{HasRoom, Wrote};

use crate::tally::Tally;
use heap::fault::{Cause, Fault, Kind};

// The least length of the buffer that is lent for a report. A report has at most 245 bytes.
pub const REPORT_BUFFER: usize = 256;

// What a line tells, by the byte that it begins with.
#[derive(Clone, Copy)]
enum LineKind {
    Frames = 0x10,
    Loads = 0x11,
    Refusals = 0x12,
    FirstRefusal = 0x13,
    RefusedTrace = 0x1F,
}

// A part of a line: one, two or four bytes.
#[derive(Clone, Copy)]
enum Field {
    Byte(u8),
    Half(u16),
    Word(u32),
}

// Upper case: into a slice the library's `hex` writes lower case alone, and a second pass would have to turn it.
fn digit(n: u8) -> u8
    requires { n < 16 }
    ensures { result ≡ hex_digit n }
{
    if n < 10 { b'0' + n } else { b'A' + (n - 10) }
}

// A lent buffer that is written from its front. It is the caller's, so neither a Vec, which would allocate, nor an array of this crate's.
#[derive(Drop)]
struct Page<'a> {
    out: &'a mut [u8],
    // how many bytes are written
    written: usize,
}

impl<'a> Page<'a> {
    fn new(out: &'a mut [u8]) -> Page<'a>
        ensures buffer { result.out.ghost_name ≡ out.entry.ghost_name }
        ensures out { result.out.now ≡ out.old }
        ensures start { result.written ≡ 0 }
    {
        Page { out, written: 0 }
    }

    fn push(&mut self, byte: u8)
        requires { self.old.written < length self.old.out.now }
        ensures { Wrote self.old (byte ∷ []) self.new }
    {
        self.out[self.written] = byte;
        self.written += 1;
    }

    // Bytes as two digits each.
    fn digits(&mut self, bytes: &[u8])
        requires { HasRoom self.old (flat_map hex_byte bytes.now) }
        ensures { Wrote self.old (flat_map hex_byte bytes.now) self.new }
    {
        for byte in bytes {
            self.push(digit(*byte / 16));
            self.push(digit(*byte % 16));
        }
    }

    fn field(&mut self, field: Field)
        requires { HasRoom self.old (hex_field field) }
        ensures { Wrote self.old (hex_field field) self.new }
    {
        match field {
            Field::Byte(n) => self.digits(&[n]),
            Field::Half(n) => self.digits(&n.to_be_bytes()),
            Field::Word(n) => self.digits(&n.to_be_bytes()),
        }
    }

    // A line of these fields, with its newline.
    fn line(&mut self, fields: &[Field])
        requires { HasRoom self.old (line fields.now) }
        ensures { Wrote self.old (line fields.now) self.new }
    {
        for field in fields {
            self.field(*field);
        }
        self.push(b'\n');
    }

    // A line for each kind that refused a frame, in the order of their numbers.
    fn kinds(&mut self, kinds: &[u32; 12])
        requires { HasRoom self.old (kind_lines 0 kinds.now) }
        ensures { Wrote self.old (kind_lines 0 kinds.now) self.new }
    {
        for (kind, count) in (0..).zip(kinds) {
            if *count > 0 {
                self.line(&[
                    Field::Byte(LineKind::Refusals as u8),
                    Field::Byte(kind),
                    Field::Word(*count),
                ]);
            }
        }
    }

    // The line of the first refused frame, where there is one.
    fn first(&mut self, first: Option<(u32, Fault)>)
        requires { HasRoom self.old (first_line first) }
        ensures { Wrote self.old (first_line first) self.new }
    {
        if let Some((frame, fault)) = first {
            self.line(&[
                Field::Byte(LineKind::FirstRefusal as u8),
                Field::Word(frame),
                Field::Byte(fault.cause.number()),
                Field::Byte(fault.kind.number()),
                Field::Byte(fault.down),
                Field::Word(fault.place),
            ]);
        }
    }

    // The lines of a whole report, of a pile by its number.
    fn report(&mut self, pile: u8, tally: &Tally)
        requires { HasRoom self.old (report_text pile tally.now) }
        ensures { Wrote self.old (report_text pile tally.now) self.new }
    {
        self.line(&[
            Field::Byte(LineKind::Frames as u8),
            Field::Byte(pile),
            Field::Word(tally.frames),
            Field::Word(tally.granted),
            Field::Word(tally.freed),
            Field::Word(tally.refused),
        ]);
        self.line(&[
            Field::Byte(LineKind::Loads as u8),
            Field::Half(tally.peak.blocks),
            Field::Word(tally.peak.bytes),
            Field::Half(tally.load.blocks),
            Field::Word(tally.load.bytes),
        ]);
        self.kinds(&tally.kinds);
        self.first(tally.first);
    }
}

// The test of a buffer that is lent for a report.
pub fn check_buffer(report: &[u8]) -> Result<(), Fault>
    ensures { result ≡ checked_buffer (length report.now) }
{
    if report.len() < REPORT_BUFFER {
        return Err(Fault::new(Cause::ReportBuffer, Kind::Replay, 256));
    }
    Ok(())
}

// Writes the report of a tally into the lent buffer and answers its length. The pile stays a number: this crate knows nothing of traces, whose piles have names.
pub fn write_report(report: &mut [u8], pile: u8, tally: &Tally) -> Result<usize, Fault>
    ensures { Writes (report_text pile tally.now) report.old report.new result }
{
    check_buffer(report)?;
    let mut page = Page::new(report);
    page.report(pile, tally);
    Ok(page.written)
}

// Writes the one line for a trace that was refused.
pub fn write_refusal(report: &mut [u8], fault: Fault) -> Result<usize, Fault>
    ensures { Writes (refusal_text fault) report.old report.new result }
{
    check_buffer(report)?;
    let mut page = Page::new(report);
    page.line(&[
        Field::Byte(LineKind::RefusedTrace as u8),
        Field::Byte(fault.cause.number()),
        Field::Word(fault.place),
    ]);
    Ok(page.written)
}
