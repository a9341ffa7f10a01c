// Bitmap heaps on small and odd regions.
use crate::faults::full;
use bitmap::Bitmap;
use heap::fault::Kind;
use heap::interface::Heap;
use std::process::Abort;

// Two cells: one is taken, 65 bytes would take two, one byte takes the other.
#[test]
fn two_cells(rt: HostRuntime) {
    let mut region = [255u8; 128];
    let mut heap = Bitmap::new(&mut region);
    assert_eq!(rt; heap.allocate(64), Ok((0, 64)));
    assert_eq!(rt; heap.allocate(65), Err(full(Kind::Bitmap, 65)));
    assert_eq!(rt; heap.allocate(1), Ok((64, 64)));
    assert_eq!(rt; heap.get(127), Ok(0));
    assert_eq!(rt; heap.allocate(1), Err(full(Kind::Bitmap, 1)));
    assert_eq!(rt; heap.free(0), Ok(()));
    assert!(rt; heap.free(0).is_err());
    assert_eq!(rt; heap.find(63), None);
    assert_eq!(rt; heap.find(64), Some((64, 64)));
}

// The lowest run that is long enough serves, over a word's border too.
#[test]
fn lowest_run(rt: HostRuntime) {
    let mut region = [0u8; 8192];
    let mut heap = Bitmap::new(&mut region);
    assert_eq!(rt; heap.allocate(4000), Ok((0, 4032)));
    assert_eq!(rt; heap.allocate(130), Ok((4032, 192)));
    assert_eq!(rt; heap.allocate(64), Ok((4224, 64)));
    assert_eq!(rt; heap.free(4032), Ok(()));
    assert_eq!(rt; heap.offer(192), Ok((4032, 192)));
    assert_eq!(rt; heap.offer(193), Ok((4288, 256)));
    assert_eq!(rt; heap.allocate(65), Ok((4032, 128)));
    assert_eq!(rt; heap.offer(1), Ok((4160, 64)));
}

fn small_regions(rt: &impl Abort, region: &mut [u8]) {
    for n in 0..region.len() {
        let heap = Bitmap::new(&mut region[0..n]);
        assert_eq!(rt; heap.span() as usize, n / 64 * 64);
        assert_eq!(rt; heap.offer(1).is_ok(), n >= 64);
    }
}

fn span_on(region: &mut [u8]) -> u32 {
    Bitmap::new(region).span()
}

// As many whole cells as fit into the first 65,536 bytes.
#[test]
fn odd_regions(rt: HostRuntime) {
    small_regions(&rt, &mut [9; 131]);
    assert_eq!(rt; span_on(&mut [9; 65535]), 65472);
    assert_eq!(rt; span_on(&mut [9; 65536]), 65536);
    assert_eq!(rt; span_on(&mut [9; 70000]), 65536);
}

// Bytes past the span are left as they were.
#[test]
fn leaves_the_rest(rt: HostRuntime) {
    let mut region = [9u8; 70000];
    let mut heap = Bitmap::new(&mut region);
    assert_eq!(rt; heap.allocate(32768), Ok((0, 32768)));
    assert_eq!(rt; heap.allocate(32768), Ok((32768, 32768)));
    assert_eq!(rt; region[65535], 0);
    assert_eq!(rt; region[65536], 9);
}
