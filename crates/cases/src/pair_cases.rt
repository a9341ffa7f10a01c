// Pairs of bump heaps, and pairs of pairs.
use bump::Bump;
use heap::fault::{Cause, Fault, Kind};
use heap::interface::Heap;
use pairs::fallback::Fallback;
use pairs::segregator::Segregator;

// What the first refuses comes from the second, behind the first's 32 addresses.
#[test]
fn falls_back(rt: HostRuntime) {
    let mut first = [0u8; 32];
    let mut second = [0u8; 64];
    let mut heap = Fallback::new(Bump::new(&mut first), Bump::new(&mut second));
    assert_eq!(rt; heap.span(), 96);
    assert_eq!(rt; heap.allocate(24), Ok((8, 24)));
    assert_eq!(rt; heap.allocate(24), Ok((40, 24)));
    assert_eq!(rt; heap.fill(40, 24, 3), Ok(()));
    assert_eq!(rt; heap.get(63), Ok(3));
    assert_eq!(rt; heap.get(31), Ok(0));
    assert!(rt; heap.fill(31, 2, 3).is_err());
    assert_eq!(rt; heap.free(40), Ok(()));
    assert_eq!(rt; heap.free(8), Ok(()));
    assert_eq!(rt; heap.allocate(24), Ok((8, 24)));
}

// Sizes go by the threshold alone, also where the other heap would have room.
#[test]
fn goes_by_size(rt: HostRuntime) {
    let mut first = [0u8; 32];
    let mut second = [0u8; 64];
    let mut heap = Segregator::new(Bump::new(&mut first), Bump::new(&mut second), 16);
    assert_eq!(rt; heap.allocate(16), Ok((8, 16)));
    assert_eq!(rt; heap.allocate(17), Ok((40, 24)));
    let full = Fault {
        cause: Cause::Full,
        kind: Kind::Bump,
        down: 1,
        place: 16,
    };
    assert_eq!(rt; heap.allocate(16), Err(full));
    let not_live = Fault {
        cause: Cause::NotLive,
        kind: Kind::Segregator,
        down: 0,
        place: 48,
    };
    assert_eq!(rt; heap.free(48), Err(not_live));
    assert_eq!(rt; heap.find(48), Some((40, 24)));
    assert_eq!(rt; heap.free(40), Ok(()));
}

// A fallback of two segregators: four heaps side by side.
#[test]
fn pairs_of_pairs(rt: HostRuntime) {
    let mut a = [0u8; 32];
    let mut b = [0u8; 32];
    let mut c = [0u8; 32];
    let mut d = [0u8; 64];
    let left = Segregator::new(Bump::new(&mut a), Bump::new(&mut b), 8);
    let right = Segregator::new(Bump::new(&mut c), Bump::new(&mut d), 8);
    let mut heap = Fallback::new(left, right);
    assert_eq!(rt; heap.span(), 160);
    assert_eq!(rt; heap.allocate(24), Ok((40, 24)));
    assert_eq!(rt; heap.allocate(24), Ok((104, 24)));
    assert_eq!(rt; heap.allocate(24), Ok((136, 24)));
    assert_eq!(rt; heap.allocate(8), Ok((8, 8)));
    let full = Fault {
        cause: Cause::Full,
        kind: Kind::Bump,
        down: 2,
        place: 24,
    };
    assert_eq!(rt; heap.allocate(24), Err(full));
    assert_eq!(rt; heap.free(104), Ok(()));
    assert_eq!(rt; heap.find(140), Some((136, 24)));
}
