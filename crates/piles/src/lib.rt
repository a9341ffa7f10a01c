// The piles that a trace may name, and the replay of a trace on its own pile.
#![tactic(auto)]

ghost use Rattle.std.specs.Prelude.{◌≡◌, Ok};
ghost use Rattle.trace.specs.declared.frame.Pile.TheVariants as pile;
ghost use Rattle.trace.specs.Recordings.{Recording, recorded};
ghost use Rattle.trace.specs.Frames.{frames_of};
ghost use Rattle.piles.specs.Piles.{OnPile, OnOwnPile, Answers, first_pile};

use bitmap::Bitmap;
use boundary_tag::BoundaryTag;
use bump::Bump;
use free_list::free_list::FreeList;
use heap::fault::Fault;
use heap::rounding::{Grain, Power};
use layers::affix::Affix;
use layers::quota::Quota;
use layers::rounded::Rounded;
use pairs::fallback::Fallback;
use pairs::segregator::Segregator;
use player::player::replay;
use report::lines::write_refusal;
use trace::frame::{Pile, read_frame};

// Pile 1.
fn replay_bump(trace: &[u8], report: &mut [u8]) -> Result<usize, Fault>
    ensures { OnPile trace.now report.old report.new result pile.Bump }
{
    let mut region = [0; 16384];
    let mut pile = Bump::new(&mut region);
    replay(&mut pile, trace, report)
}

// Pile 2.
fn replay_reusing(trace: &[u8], report: &mut [u8]) -> Result<usize, Fault>
    ensures { OnPile trace.now report.old report.new result pile.Reusing }
{
    let mut region = [0; 16384];
    let rounded = Rounded::new(Bitmap::new(&mut region), Power);
    let mut pile = FreeList::new(rounded, Grain);
    replay(&mut pile, trace, report)
}

// Pile 3: small sizes from a free list; large ones from marked blocks, or from the last heap once those are full, and together within a limit.
fn replay_splitting(trace: &[u8], report: &mut [u8]) -> Result<usize, Fault>
    ensures { OnPile trace.now report.old report.new result pile.Splitting }
{
    let mut small = [0; 8192];
    let mut large = [0; 8192];
    let mut last = [0; 4096];
    let reused = FreeList::new(Bitmap::new(&mut small), Power);
    let marked = Affix::new(BoundaryTag::new(&mut large));
    let rationed = Quota::new(Fallback::new(marked, Bump::new(&mut last)), 10000);
    let mut pile = Segregator::new(reused, rationed, 256);
    replay(&mut pile, trace, report)
}

// The pile that a trace's head names. A trace whose head names none is refused on any pile, so one of them serves.
fn named_pile(trace: &[u8]) -> Pile
    ensures first { result ≡ first_pile (frames_of trace.now) }
    ensures named { (x : Recording) → recorded trace.now ≡ Ok x → x.pile ≡ result }
{
    let Some((head, _)) = read_frame(trace) else {
        return Pile::Bump;
    };
    head.pile().unwrap_or(Pile::Bump)
}

// Replays a trace on the pile that its head names. One that names none is refused on any pile. The trace and the report are the input and the output of each call here; a struct of both would only be taken apart.
pub fn replay_pile(trace: &[u8], report: &mut [u8]) -> Result<usize, Fault>
    ensures { OnOwnPile trace.now report.old report.new result }
{
    match named_pile(trace) {
        Pile::Bump => replay_bump(trace, report),
        Pile::Reusing => replay_reusing(trace, report),
        Pile::Splitting => replay_splitting(trace, report),
    }
}

// What the program prints for a trace, in the lent buffer, with its length: the report, or the one line of a refused trace.
pub fn answer(trace: &[u8], text: &mut [u8]) -> Result<usize, Fault>
    ensures { Answers trace.now text.old text.new result }
{
    // By match and not by or_else: of what a closure does to the buffer that it captures, the proof learns nothing.
    match replay_pile(trace, text) {
        Ok(length) => Ok(length),
        Err(fault) => write_refusal(text, fault),
    }
}
