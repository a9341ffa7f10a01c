// A tour of a pile of six layers: makes a list of calls on it and prints each one with its answer, then the live blocks; a block between the marks of an affix; and a boundary tag heap that joins three chunks.
#![tactic(auto)]

mod lines;

use boundary_tag::BoundaryTag;
use bump::Bump;
use free_list::free_list::FreeList;
use heap::calls::{Call, Step, run};
use heap::interface::Heap;
use heap::rounding::{Grain, Power};
use layers::affix::Affix;
use layers::quota::Quota;
use layers::rounded::Rounded;
use lines::{print_blocks, print_steps};
use pairs::fallback::Fallback;
use pairs::segregator::Segregator;

const THRESHOLD: u32 = 64;

const LIMIT: u32 = 200;

const SMALL: usize = 256;

const LARGE: usize = 160;

const LAST: usize = 128;

const SCRIPT: [Call; 26] = [
    Call::Span,
    // up to 64 bytes: the free list
    Call::Allocate(20),
    Call::Allocate(60),
    Call::Fill(48, 60, 7),
    Call::Free(8),
    Call::Find(8),
    Call::Allocate(30),
    Call::Free(48),
    Call::Allocate(57),
    Call::Get(48),
    // more: the affix, then the heap that it falls back on
    Call::Allocate(100),
    Call::Fill(272, 100, 9),
    Call::Get(376),
    Call::Allocate(70),
    Call::Allocate(65),
    Call::Free(424),
    Call::Allocate(100),
    Call::Allocate(40000),
    Call::Allocate(0),
    // what is held goes down at relief
    Call::Free(8),
    Call::Free(48),
    Call::Offer(64),
    Call::Relief,
    Call::Offer(64),
    Call::Free(300),
    Call::Get(272),
];

// The lowest chunk that fits serves, and a free joins its chunk with both neighbours.
const CHUNKS: [Call; 9] = [
    Call::Allocate(16),
    Call::Allocate(24),
    Call::Allocate(16),
    Call::Free(8),
    Call::Free(80),
    Call::Offer(8),
    Call::Offer(30),
    Call::Free(40),
    Call::Offer(112),
];

// Makes the calls and prints each one with its answer.
fn show<H: Heap>(rt: &HostRuntime, heap: &mut H, steps: &mut [Step]) -> anyhow::Result<()> {
    run(heap, steps);
    print_steps(rt, steps)
}

// Small sizes from a free list, large ones under a quota from marked blocks, or from a last heap once those are full.
fn tour_pile(rt: &HostRuntime) -> anyhow::Result<()> {
    let mut small = [0u8; SMALL];
    let mut large = [0u8; LARGE];
    let mut last = [0u8; LAST];
    println!(rt; "segregator at {THRESHOLD} of")?;
    println!(rt;
        "  free list (multiples of 8) over rounding (powers of 2) over bump on {SMALL} bytes"
    )?;
    println!(rt;
        "  quota {LIMIT} over fallback of affix over bump on {LARGE} bytes and bump on {LAST} bytes"
    )?;
    let reused = FreeList::new(Rounded::new(Bump::new(&mut small), Power), Grain);
    let marked = Fallback::new(Affix::new(Bump::new(&mut large)), Bump::new(&mut last));
    let mut pile = Segregator::new(reused, Quota::new(marked, LIMIT), THRESHOLD);
    show(rt, &mut pile, &mut SCRIPT.map(Step::new))?;
    print_blocks(rt, &pile)
}

// Chunks that are split, and three of them joined.
fn tour_chunks(rt: &HostRuntime) -> anyhow::Result<()> {
    let mut region = [0u8; 128];
    let mut heap = BoundaryTag::new(&mut region);
    println!(rt; "boundary tag on 128 bytes")?;
    show(rt, &mut heap, &mut CHUNKS.map(Step::new))
}

// Whether a block's marks are as they were written.
fn tour_marks(rt: &HostRuntime) -> anyhow::Result<()> {
    let mut region = [0u8; 64];
    let mut heap = Affix::new(Bump::new(&mut region));
    if let Ok((address, length)) = heap.allocate(16) {
        let _ = heap.fill(address, length, 255);
        let whole = heap.whole(address);
        println!(rt;
            "affix over bump on 64 bytes: {length} bytes at {address}, filled, whole: {whole}"
        )?;
    }
    Ok(())
}

fn main(rt: HostRuntime) -> anyhow::Result<()> {
    tour_pile(&rt)?;
    tour_marks(&rt)?;
    tour_chunks(&rt)
}
