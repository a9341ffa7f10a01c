// Heaps side by side up to the largest span, and one more.
use bump::Bump;
use heap::fault::{Cause, Fault, Kind};
use heap::interface::Heap;
use pairs::fallback::Fallback;
use pairs::segregator::Segregator;
use std::process::Abort;
use std::test::Fail;

// The pile is built level by level, each over any heap, since the proof of one function over sixteen heaps takes minutes.
fn of_two<H: Heap + Drop, L: Heap + Drop>(rt: &impl Abort, a: H, b: H, last: L) {
    let all = Fallback::new(a, b);
    assert_eq!(rt; all.span(), 1048576);
    let mut heap = Segregator::new(all, last, 8);
    assert_eq!(rt; heap.span(), 1048576);
    assert_eq!(rt; heap.allocate(8), Ok((8, 8)));
    let shut = Fault {
        cause: Cause::Shut,
        kind: Kind::Segregator,
        down: 0,
        place: 9,
    };
    assert_eq!(rt; heap.allocate(9), Err(shut));
}

fn of_four<H: Heap + Drop, L: Heap + Drop>(rt: &impl Abort, a: H, b: H, c: H, d: H, last: L) {
    of_two(rt, Fallback::new(a, b), Fallback::new(c, d), last);
}

fn of_eight<H: Heap + Drop, L: Heap + Drop>(
    rt: &impl Abort,
    ab: (H, H),
    cd: (H, H),
    ef: (H, H),
    gh: (H, H),
    last: L,
) {
    of_four(
        rt,
        Fallback::new(ab.0, ab.1),
        Fallback::new(cd.0, cd.1),
        Fallback::new(ef.0, ef.1),
        Fallback::new(gh.0, gh.1),
        last,
    );
}

fn two<'a>(region: &'a mut [u8]) -> (Bump<'a>, Bump<'a>) {
    let middle = region.len() / 2;
    let (first, second) = region.split_at_mut(middle);
    (Bump::new(first), Bump::new(second))
}

fn pair<'a>(region: &'a mut [u8]) -> Fallback<Bump<'a>, Bump<'a>> {
    let (first, second) = two(region);
    Fallback::new(first, second)
}

fn pairs<'a>(region: &'a mut [u8]) -> (Fallback<Bump<'a>, Bump<'a>>, Fallback<Bump<'a>, Bump<'a>>) {
    let middle = region.len() / 2;
    let (first, second) = region.split_at_mut(middle);
    (pair(first), pair(second))
}

fn sixteen(rt: &impl Abort, region: &mut [u8], last: &mut [u8]) {
    let middle = region.len() / 2;
    let (low, high) = region.split_at_mut(middle);
    let quarter = low.len() / 2;
    let (a, b) = low.split_at_mut(quarter);
    let quarter = high.len() / 2;
    let (c, d) = high.split_at_mut(quarter);
    of_eight(rt, pairs(a), pairs(b), pairs(c), pairs(d), Bump::new(last));
}

// Sixteen heaps of 65,536 addresses are as many as a pile may have; a seventeenth is shut.
#[test]
fn too_large_a_pair(rt: HostRuntime) -> Result<(), Fail> {
    let mut region = vec![in rt.alloc(); 0u8; 1048576]?;
    let mut last = vec![in rt.alloc(); 0u8; 65536]?;
    sixteen(&rt, region.as_mut_slice(), last.as_mut_slice());
    Ok(())
}
