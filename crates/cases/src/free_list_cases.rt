// Free lists over bump heaps, and over each other.
use bump::Bump;
use free_list::free_list::FreeList;
use heap::fault::{Cause, Fault, Kind};
use heap::interface::Heap;
use heap::rounding::{Grain, Power};
use layers::quota::Quota;

// A block granted for 20 serves 32, cleared; 33 asks below for 64.
#[test]
fn serves_again(rt: HostRuntime) {
    let mut region = [0u8; 64];
    let mut heap = FreeList::new(Bump::new(&mut region), Power);
    assert_eq!(rt; heap.allocate(20), Ok((8, 32)));
    assert_eq!(rt; heap.fill(8, 32, 5), Ok(()));
    assert_eq!(rt; heap.free(8), Ok(()));
    assert_eq!(rt; heap.find(8), None);
    assert!(rt; heap.get(8).is_err());
    assert!(rt; heap.free(8).is_err());
    assert_eq!(rt; heap.allocate(32), Ok((8, 32)));
    assert_eq!(rt; heap.get(8), Ok(0));
    let full = Fault {
        cause: Cause::Full,
        kind: Kind::Bump,
        down: 1,
        place: 64,
    };
    assert_eq!(rt; heap.allocate(33), Err(full));
}

// The newest that is long enough serves, not the first or the best.
#[test]
fn newest_first(rt: HostRuntime) {
    let mut region = [0u8; 256];
    let mut heap = FreeList::new(Bump::new(&mut region), Grain);
    assert_eq!(rt; heap.allocate(8), Ok((8, 8)));
    assert_eq!(rt; heap.allocate(40), Ok((24, 40)));
    assert_eq!(rt; heap.allocate(16), Ok((72, 16)));
    assert_eq!(rt; heap.free(8), Ok(()));
    assert_eq!(rt; heap.free(24), Ok(()));
    assert_eq!(rt; heap.free(72), Ok(()));
    assert_eq!(rt; heap.offer(17), Ok((24, 40)));
    assert_eq!(rt; heap.allocate(8), Ok((72, 16)));
    assert_eq!(rt; heap.allocate(8), Ok((24, 40)));
    assert_eq!(rt; heap.allocate(8), Ok((8, 8)));
}

// Sixteen are held; the seventeenth is freed below. Relief hands all of them down, and the bump heap starts over.
#[test]
fn seventeenth_goes_below(rt: HostRuntime) {
    let mut region = [0u8; 512];
    let mut heap = FreeList::new(Bump::new(&mut region), Grain);
    for i in 0..17 {
        assert_eq!(rt; heap.allocate(8), Ok((8 + 16 * i, 8)));
    }
    for i in 0..17 {
        assert_eq!(rt; heap.free(8 + 16 * i), Ok(()));
    }
    assert_eq!(rt; heap.allocate(8), Ok((248, 8)));
    assert_eq!(rt; heap.free(248), Ok(()));
    assert_eq!(rt; heap.offer(9), Ok((280, 16)));
    heap.relief();
    assert_eq!(rt; heap.offer(9), Ok((8, 16)));
}

// A free list over a free list over a quota: what the upper one holds the lower one never sees, until relief.
#[test]
fn over_each_other(rt: HostRuntime) {
    let mut region = [0u8; 256];
    let quota = Quota::new(Bump::new(&mut region), 64);
    let mut heap = FreeList::new(FreeList::new(quota, Power), Grain);
    assert_eq!(rt; heap.allocate(20), Ok((8, 32)));
    assert_eq!(rt; heap.allocate(32), Ok((48, 32)));
    let over = Fault {
        cause: Cause::OverQuota,
        kind: Kind::Quota,
        down: 2,
        place: 8,
    };
    assert_eq!(rt; heap.allocate(1), Err(over));
    assert_eq!(rt; heap.free(8), Ok(()));
    assert_eq!(rt; heap.allocate(1), Ok((8, 32)));
    assert_eq!(rt; heap.free(8), Ok(()));
    assert_eq!(rt; heap.free(48), Ok(()));
    heap.relief();
    assert_eq!(rt; heap.offer(64), Ok((8, 64)));
}
