// Bump heaps on small and odd regions.
use bump::Bump;
use heap::fault::{Cause, Fault, Kind};
use heap::interface::Heap;
use std::process::Abort;

const FULL: Fault = Fault {
    cause: Cause::Full,
    kind: Kind::Bump,
    down: 0,
    place: 1,
};

// On 64 bytes 24 and 24 fit, and one byte more does not.
#[test]
fn two_blocks_fill_it(rt: HostRuntime) {
    let mut region = [255u8; 64];
    let mut heap = Bump::new(&mut region);
    assert_eq!(rt; heap.allocate(24), Ok((8, 24)));
    assert_eq!(rt; heap.allocate(24), Ok((40, 24)));
    assert_eq!(rt; heap.allocate(1), Err(FULL));
    assert_eq!(rt; heap.get(8), Ok(0));
    assert_eq!(rt; heap.find(63), Some((40, 24)));
    assert_eq!(rt; heap.find(39), None);
}

// Only when both are freed does the first place serve again.
#[test]
fn starts_over_once_empty(rt: HostRuntime) {
    let mut region = [0u8; 64];
    let mut heap = Bump::new(&mut region);
    assert_eq!(rt; heap.allocate(24), Ok((8, 24)));
    assert_eq!(rt; heap.allocate(24), Ok((40, 24)));
    assert_eq!(rt; heap.fill(8, 24, 7), Ok(()));
    assert_eq!(rt; heap.free(8), Ok(()));
    assert!(rt; heap.offer(24).is_err());
    assert_eq!(rt; heap.free(40), Ok(()));
    assert_eq!(rt; heap.allocate(24), Ok((8, 24)));
    assert_eq!(rt; heap.get(31), Ok(0));
}

// The largest size may be offered where it fits; one more never is.
#[test]
fn largest_size(rt: HostRuntime) {
    let mut region = [0u8; 65536];
    let heap = Bump::new(&mut region);
    assert_eq!(rt; heap.offer(32768), Ok((8, 32768)));
    let large = Fault {
        cause: Cause::TooLarge,
        kind: Kind::Bump,
        down: 0,
        place: 32769,
    };
    assert_eq!(rt; heap.offer(32769), Err(large));
}

fn spans_and_offers(
    rt: &impl Abort,
    region: &mut [u8],
    span: u32,
    offer: Result<(u32, u32), Fault>,
) {
    let heap = Bump::new(region);
    assert_eq!(rt; heap.span(), span);
    assert_eq!(rt; heap.offer(1), offer);
}

// A header and eight bytes are the least that serves; of a region only the first 65,536 bytes are used.
#[test]
fn odd_regions(rt: HostRuntime) {
    spans_and_offers(&rt, &mut [], 0, Err(FULL));
    spans_and_offers(&rt, &mut [9; 7], 0, Err(FULL));
    spans_and_offers(&rt, &mut [9; 8], 8, Err(FULL));
    spans_and_offers(&rt, &mut [9; 15], 8, Err(FULL));
    spans_and_offers(&rt, &mut [9; 16], 16, Ok((8, 8)));
    spans_and_offers(&rt, &mut [9; 70000], 65536, Ok((8, 8)));
}

// Bytes past the span are left as they were.
#[test]
fn leaves_the_rest(rt: HostRuntime) {
    let mut region = [9u8; 70000];
    let mut heap = Bump::new(&mut region);
    assert_eq!(rt; heap.allocate(32768), Ok((8, 32768)));
    assert_eq!(rt; heap.allocate(32752), Ok((32784, 32752)));
    assert_eq!(rt; heap.fill(32784, 32752, 1), Ok(()));
    assert_eq!(rt; region[65535], 1);
    assert_eq!(rt; region[65536], 9);
    assert_eq!(rt; region[69999], 9);
}
