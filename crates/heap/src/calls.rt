// Any list of calls on any heap, with the promise that a live block belongs to its client alone.
ghost use Rattle.std.specs.Prelude.{◌≡◌, []};
ghost use Rattle.heap.specs.Histories.{History, Booked, Kept};
ghost use Rattle.heap.specs.Meaning.{NothingLive};
ghost use Rattle.heap.specs.Runs.{Answered, Ran, Promise, after_answer, after_steps, calls};

use crate::fault::Fault;
use crate::interface::Heap;
use std::fmt;

#[derive(Clone, Copy, PartialEq, Eq, Debug)]
pub enum Call {
    Allocate(u32),
    Free(u32),
    Fill(u32, u32, u8),
    Relief,
    Span,
    Offer(u32),
    Find(u32),
    Get(u32),
}

#[derive(Clone, Copy, PartialEq, Eq, Debug)]
pub enum Answer {
    Nothing,
    Number(u32),
    Block(Result<(u32, u32), Fault>),
    Done(Result<(), Fault>),
    Found(Option<(u32, u32)>),
    Byte(Result<u8, Fault>),
}

impl fmt::Display for Call {
    fn fmt<W: fmt::Write>(&self, f: &mut fmt::Formatter<W>) -> fmt::Result {
        match self {
            Call::Allocate(n) => write!(f, "allocate {n}"),
            Call::Free(a) => write!(f, "free {a}"),
            Call::Fill(a, c, b) => write!(f, "fill {c} at {a} with {b}"),
            Call::Relief => f.write_str("relief"),
            Call::Span => f.write_str("span"),
            Call::Offer(n) => write!(f, "offer {n}"),
            Call::Find(a) => write!(f, "find {a}"),
            Call::Get(a) => write!(f, "get {a}"),
        }
    }
}

impl fmt::Display for Answer {
    fn fmt<W: fmt::Write>(&self, f: &mut fmt::Formatter<W>) -> fmt::Result {
        match self {
            Answer::Nothing | Answer::Done(Ok(())) => f.write_str("done"),
            Answer::Number(n) => write!(f, "{n}"),
            Answer::Block(Ok((address, length))) | Answer::Found(Some((address, length))) => {
                write!(f, "{length} bytes at {address}")
            }
            Answer::Found(None) => f.write_str("no live block"),
            Answer::Byte(Ok(b)) => write!(f, "byte {b}"),
            Answer::Block(Err(fault)) | Answer::Done(Err(fault)) | Answer::Byte(Err(fault)) => {
                write!(f, "{fault}")
            }
        }
    }
}

// A call, and the place for its answer. Before the call nothing stands there, which is also all that relief answers: no Option beside `Nothing`.
#[derive(Clone, Copy, PartialEq, Eq, Debug)]
pub struct Step {
    pub call: Call,
    pub answer: Answer,
}

impl Step {
    // A call that is yet to be made.
    pub fn new(call: Call) -> Step
        ensures call { result.call ≡ call }
        ensures answer { result.answer ≡ Answer.Nothing }
    {
        Step {
            call,
            answer: Answer::Nothing,
        }
    }
}

// Makes one call.
pub fn make<P: Heap>(pile: &mut P, call: Call) -> Answer
    ensures answered { Answered call (P.Meant.means pile.old) (P.Meant.means pile.new) result }
    ensures kept { Kept P.Meant.keeps (after_answer call result) pile.old pile.new }
{
    match call {
        Call::Allocate(n) => Answer::Block(pile.allocate(n)),
        Call::Free(a) => Answer::Done(pile.free(a)),
        Call::Fill(a, c, b) => Answer::Done(pile.fill(a, c, b)),
        Call::Relief => {
            pile.relief();
            Answer::Nothing
        }
        Call::Span => Answer::Number(pile.span()),
        Call::Offer(n) => Answer::Block(pile.offer(n)),
        Call::Find(a) => Answer::Found(pile.find(a)),
        Call::Get(a) => Answer::Byte(pile.get(a)),
    }
}

// Makes the calls in turn on any pile of layers over heaps, and writes each answer beside its call.
//
// `ran`: each answer is the one that the pile's meaning gave at that moment; an allocate answers the offer, and is refused exactly where that is a fault.
// `kept`: what the pile, and so every layer in it, kept from any state over any history, it keeps over that history with this run. `begun`: it keeps this run from its entry on, with no condition.
// `booked`: if the pile's live blocks were those of a book, they are those of the book with this run; each belongs to its client alone. `fresh`: so it is where nothing was live.
pub fn run<P: Heap>(pile: &mut P, steps: &mut [Step])
    ensures calls { calls steps.new ≡ calls steps.old }
    ensures ran { Ran steps.new (P.Meant.means pile.old) (P.Meant.means pile.new) }
    ensures kept { Kept P.Meant.keeps (after_steps steps.new) pile.old pile.new }
    ensures begun { P.Meant.keeps pile.old (after_steps steps.new []) pile.new }
    ensures booked { (h : History) → Booked h (P.Meant.means pile.old) → Promise h steps.new (P.Meant.means pile.old) (P.Meant.means pile.new) }
    ensures fresh { NothingLive (P.Meant.means pile.old) → Promise [] steps.new (P.Meant.means pile.old) (P.Meant.means pile.new) }
{
    for step in steps.iter_mut() {
        step.answer = make(pile, step.call);
    }
}
