// Boundary tag heaps on small and odd regions.
use crate::faults::full;
use boundary_tag::BoundaryTag;
use heap::fault::{Cause, Fault, Kind};
use heap::interface::Heap;
use layers::affix::Affix;
use std::process::Abort;

// Two chunks fill 64 bytes; once both are freed they are one again.
#[test]
fn two_chunks(rt: HostRuntime) {
    let mut region = [255u8; 64];
    let mut heap = BoundaryTag::new(&mut region);
    assert_eq!(rt; heap.allocate(16), Ok((8, 16)));
    assert_eq!(rt; heap.allocate(16), Ok((40, 16)));
    assert_eq!(rt; heap.allocate(1), Err(full(Kind::BoundaryTag, 1)));
    assert_eq!(rt; heap.get(23), Ok(0));
    assert!(rt; heap.get(24).is_err());
    assert_eq!(rt; heap.free(8), Ok(()));
    assert_eq!(rt; heap.free(40), Ok(()));
    assert_eq!(rt; heap.allocate(48), Ok((8, 48)));
}

// A rest of at least 24 bytes stays a chunk; a shorter one is granted too.
#[test]
fn rest_of_a_chunk(rt: HostRuntime) {
    let mut region = [0u8; 64];
    let heap = BoundaryTag::new(&mut region);
    assert_eq!(rt; heap.offer(24), Ok((8, 24)));
    assert_eq!(rt; heap.offer(32), Ok((8, 48)));
    assert_eq!(rt; heap.offer(49), Err(full(Kind::BoundaryTag, 49)));
}

// A free joins its chunk with the free ones before and behind it.
#[test]
fn three_become_one(rt: HostRuntime) {
    let mut region = [0u8; 128];
    let mut heap = BoundaryTag::new(&mut region);
    assert_eq!(rt; heap.allocate(16), Ok((8, 16)));
    assert_eq!(rt; heap.allocate(24), Ok((40, 24)));
    assert_eq!(rt; heap.allocate(16), Ok((80, 16)));
    assert_eq!(rt; heap.free(8), Ok(()));
    assert_eq!(rt; heap.free(80), Ok(()));
    assert_eq!(rt; heap.offer(40), Ok((80, 40)));
    assert_eq!(rt; heap.free(40), Ok(()));
    assert_eq!(rt; heap.offer(112), Ok((8, 112)));
}

// An affix asks for 16 bytes more, and shows the block without them.
#[test]
fn under_an_affix(rt: HostRuntime) {
    let mut region = [0u8; 64];
    let mut heap = Affix::new(BoundaryTag::new(&mut region));
    let below = Fault {
        cause: Cause::Full,
        kind: Kind::BoundaryTag,
        down: 1,
        place: 49,
    };
    assert_eq!(rt; heap.allocate(33), Err(below));
    assert_eq!(rt; heap.allocate(16), Ok((16, 32)));
}

fn small_regions(rt: &impl Abort, region: &mut [u8]) {
    for n in 0..region.len() {
        let span = n / 8 * 8;
        let heap = BoundaryTag::new(&mut region[0..n]);
        if span < 24 {
            assert_eq!(rt; heap.span(), 0);
            assert_eq!(rt; heap.offer(1), Err(full(Kind::BoundaryTag, 1)));
        } else {
            assert_eq!(rt; heap.span() as usize, span);
            assert!(rt; heap.offer(1).is_ok());
        }
    }
}

fn spans_and_offers(rt: &impl Abort, region: &mut [u8], span: u32, n: u32, offer: (u32, u32)) {
    let heap = BoundaryTag::new(region);
    assert_eq!(rt; heap.span(), span);
    assert_eq!(rt; heap.offer(n), Ok(offer));
}

// The least chunk has 24 bytes; a block may be longer than the largest size.
#[test]
fn odd_regions(rt: HostRuntime) {
    small_regions(&rt, &mut [9; 131]);
    spans_and_offers(&rt, &mut [9; 24], 24, 8, (8, 8));
    spans_and_offers(&rt, &mut [9; 32800], 32800, 32768, (8, 32784));
    spans_and_offers(&rt, &mut [9; 65535], 65528, 1, (8, 8));
    spans_and_offers(&rt, &mut [9; 65536], 65536, 1, (8, 8));
    spans_and_offers(&rt, &mut [9; 70000], 65536, 1, (8, 8));
}

// Bytes past the span are left as they were.
#[test]
fn leaves_the_rest(rt: HostRuntime) {
    let mut region = [9u8; 70];
    let mut heap = BoundaryTag::new(&mut region);
    assert_eq!(rt; heap.allocate(48), Ok((8, 48)));
    assert_eq!(rt; heap.fill(8, 48, 1), Ok(()));
    assert_eq!(rt; region[63], 0);
    assert_eq!(rt; region[64], 9);
}
