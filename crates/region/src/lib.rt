// The bytes of a lent region: numbers of four bytes, painting, and how much of the region is used.
#![tactic(auto)]

ghost use Rattle.std.specs.Prelude.{◌≡◌, ◌+◌, ◌<◌, ◌≤◌, length};
ghost use Rattle.region.specs.Bytes.{word_at, put_word, Painted, span_of};

// The number in the four bytes from `p` on, lowest first; 0 where the region ends before: no header and no tag has that for a length, and their lengths are read first.
pub fn word(region: &[u8], p: u32) -> u32
    ensures inside { p + 4 ≤ length region.now → result ≡ word_at region.now p }
    ensures outside { length region.now < p + 4 → result ≡ 0 }
{
    let start = p as usize;
    match region.get(start..start + 4) {
        Some([a, b, c, d]) => u32::from_le_bytes([*a, *b, *c, *d]),
        _ => 0,
    }
}

// Writes `v` into the four bytes from `p` on, lowest first; nothing where the region ends before.
pub fn put_word(region: &mut [u8], p: u32, v: u32)
    ensures inside { p + 4 ≤ length region.old → region.new ≡ put_word region.old p v }
    ensures outside { length region.old < p + 4 → region.new ≡ region.old }
{
    let start = p as usize;
    if region.len() < start + 4 {
        return;
    }
    region[start..start + 4].copy_from_slice(&v.to_le_bytes());
}

// Sets the `c` bytes from `a` on to `v`; none where the region ends before.
pub fn paint(region: &mut [u8], a: u32, c: u32, v: u8)
    ensures inside { a + c ≤ length region.old → Painted a c v region.old region.new }
    ensures outside { length region.old < a + c → region.new ≡ region.old }
{
    let start = a as usize;
    let end = start + c as usize;
    if region.len() < end {
        return;
    }
    for byte in &mut region[start..end] {
        *byte = v;
    }
}

// The used length, at most 65,536 bytes, rounded down to a multiple of 8.
pub fn used_span(region: &[u8]) -> u32
    ensures { result ≡ span_of (length region.now) }
{
    region.len().min(65536) as u32 / 8 * 8
}
