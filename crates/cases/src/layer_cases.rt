// Layers over bump heaps of 64 bytes.
use bump::Bump;
use heap::fault::{Cause, Fault, Kind};
use heap::interface::Heap;
use heap::rounding::{Grain, Power, Rounding};
use layers::affix::Affix;
use layers::quota::Quota;
use layers::rounded::Rounded;

// The account takes the lengths granted: 48 is enough for two blocks of 24, 47 is not.
#[test]
fn quota_by_length(rt: HostRuntime) {
    let mut region = [0u8; 64];
    let mut heap = Quota::new(Bump::new(&mut region), 48);
    assert_eq!(rt; heap.allocate(24), Ok((8, 24)));
    assert_eq!(rt; heap.allocate(24), Ok((40, 24)));
    assert_eq!(rt; heap.account(), 48);
    assert_eq!(rt; heap.free(8), Ok(()));
    assert_eq!(rt; heap.account(), 24);
}

#[test]
fn quota_passed(rt: HostRuntime) {
    let mut region = [0u8; 64];
    let mut heap = Quota::new(Bump::new(&mut region), 47);
    assert_eq!(rt; heap.allocate(17), Ok((8, 24)));
    let over = Fault {
        cause: Cause::OverQuota,
        kind: Kind::Quota,
        down: 0,
        place: 24,
    };
    assert_eq!(rt; heap.allocate(24), Err(over));
    assert_eq!(rt; heap.account(), 24);
}

// 20 is asked below as 32; a size past the rounding's largest is refused by the rounding layer.
#[test]
fn rounding_layer(rt: HostRuntime) {
    let mut region = [0u8; 64];
    let mut heap = Rounded::new(Bump::new(&mut region), Power);
    assert_eq!(rt; heap.allocate(20), Ok((8, 32)));
    let full = Fault {
        cause: Cause::Full,
        kind: Kind::Bump,
        down: 1,
        place: 64,
    };
    assert_eq!(rt; heap.allocate(33), Err(full));
    let mut region = [0u8; 64];
    let heap = Rounded::new(Bump::new(&mut region), Grain);
    let large = Fault {
        cause: Cause::TooLarge,
        kind: Kind::Rounding,
        down: 0,
        place: 8193,
    };
    assert_eq!(rt; heap.offer(8193), Err(large));
}

#[test]
fn roundings(rt: HostRuntime) {
    assert_eq!(rt; Grain::round(1), 8);
    assert_eq!(rt; Grain::round(8), 8);
    assert_eq!(rt; Grain::round(8192), 8192);
    assert_eq!(rt; Grain::round(8193), 0);
    assert_eq!(rt; Power::round(8), 8);
    assert_eq!(rt; Power::round(9), 16);
    assert_eq!(rt; Power::round(32768), 32768);
    assert_eq!(rt; Power::round(32769), 0);
}

// The block stands between two marks: 16 bytes are asked below as 32, and a fill cannot reach a mark.
#[test]
fn affix_marks(rt: HostRuntime) {
    let mut region = [0u8; 64];
    let mut heap = Affix::new(Bump::new(&mut region));
    assert_eq!(rt; heap.allocate(16), Ok((16, 16)));
    assert!(rt; heap.whole(16));
    assert_eq!(rt; heap.fill(16, 16, 1), Ok(()));
    assert!(rt; heap.whole(16));
    assert!(rt; heap.fill(16, 17, 1).is_err());
    assert!(rt; heap.fill(15, 1, 1).is_err());
    assert_eq!(rt; heap.find(15), None);
    assert!(rt; !heap.whole(8));
    assert_eq!(rt; heap.free(16), Ok(()));
    assert!(rt; !heap.whole(16));
}

// An affix adds 16 to the size, so the heap below may find it too large.
#[test]
fn affix_of_the_largest(rt: HostRuntime) {
    let mut region = [0u8; 65536];
    let heap = Affix::new(Bump::new(&mut region));
    assert_eq!(rt; heap.offer(32752), Ok((16, 32752)));
    let large = Fault {
        cause: Cause::TooLarge,
        kind: Kind::Bump,
        down: 1,
        place: 32769,
    };
    assert_eq!(rt; heap.offer(32753), Err(large));
}

// Marks between marks: an affix over an affix, and a quota over both.
#[test]
fn affix_over_affix(rt: HostRuntime) {
    let mut region = [0u8; 128];
    let mut heap = Quota::new(Affix::new(Affix::new(Bump::new(&mut region))), 1000);
    assert_eq!(rt; heap.allocate(24), Ok((24, 24)));
    assert_eq!(rt; heap.allocate(1), Ok((88, 8)));
    let full = Fault {
        cause: Cause::Full,
        kind: Kind::Bump,
        down: 3,
        place: 40,
    };
    assert_eq!(rt; heap.allocate(8), Err(full));
}
