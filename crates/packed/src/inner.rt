// The functions on packed buffers that the calls rest on (representation.rs). They are not open to a caller: most require a buffer
// that was tested. The walks of path/mod.rs are methods of `LentPath`. The loops over a table go by index: the proofs read its numbers by
// their places.

ghost use Rattle.std.specs.Prelude.{◌≡◌, ◌+◌, ◌*◌, ◌<◌, ◌≤◌, true, ◌&&◌, [], length, slice_index_or};
ghost use Rattle.number.specs.Overwriting.{overwrite};
ghost use Rattle.willow.specs.Answers.{path_in};
ghost use Rattle.willow.specs.Packed.{length_before, pack, Packed, packed_count, steps_fit, unpack, well_formed};
ghost use Rattle.willow.specs.Paths.{path_length};
ghost use Rattle.packed.specs.Readable.{Readable};
ghost use Rattle.packed.specs.Steps.{steps_within};

use willow::Limits;

// Whether the bits of all steps together are at most MCL as a number. Then so is each step; but steps that are within may fail.
// They are taken modulo 2^64: with fewer than 2^32 of them, and each below 2^32, no sum wraps, so no length falls. The loop is not
// left early, so that it is compiled to wide reads.
fn bits_within(mcl: u64, most: u64, b: &[u8], n: usize) -> bool
    requires { 8 + 8 * n ≤ length b.now }
    ensures { result ≡ true → steps_within mcl most b.now n 8 0 ≡ true }
{
    if u64::from(u32::MAX) < mcl || u64::from(u32::MAX) < n as u64 {
        return false;
    }
    let mut bits: u64 = 0;
    let mut from: u64 = 0;
    for i in 0..n {
        let next = number::read_u64(b, 8 + 8 * i);
        bits |= next.wrapping_sub(from);
        from = next;
    }
    if most < from {
        return false;
    }
    bits <= mcl
}

// Whether the n accumulated lengths behind the count step up by at most MCL, and the last is at most `most`. A long table is
// tested by the bits of its steps first.
pub fn steps_within(mcl: u64, most: u64, b: &[u8], n: usize) -> bool
    requires { 8 + 8 * n ≤ length b.now }
    ensures { result ≡ steps_within mcl most b.now n 8 0 }
{
    if 16 <= n && bits_within(mcl, most, b, n) {
        return true;
    }
    let mut from: u64 = 0;
    for i in 0..n {
        let next = number::read_u64(b, 8 + 8 * i);
        if next < from {
            return false;
        }
        if mcl < next - from {
            return false;
        }
        from = next;
    }
    from <= most
}

// Whether the n accumulated lengths behind the count step as they should, and end where the bytes do.
fn steps_fit(limits: Limits, b: &[u8], n: usize) -> bool
    requires { 8 + 8 * n ≤ length b.now }
    ensures { result ≡ steps_fit limits b.now n 8 0 }
{
    let bytes = b.len() - (8 + 8 * n);
    length_before(b, n) == bytes && steps_within(limits.mcl, limits.mpl, b, n)
}

// Whether the bytes are the packed form of a path within the limits, whatever their length and content.
pub fn well_formed(limits: Limits, b: &[u8]) -> bool
    ensures { result ≡ well_formed limits b.now }
{
    if b.len() < 8 {
        return false;
    }
    let k = number::read_u64(b, 0);
    if limits.mcc < k {
        return false;
    }
    let n = k as usize;
    if (b.len() - 8) / 8 < n {
        return false;
    }
    steps_fit(limits, b, n)
}

// How many components a packed path has.
pub fn component_count(b: &[u8]) -> usize
    requires { Packed b.now }
    ensures { result ≡ packed_count b.now }
{
    number::read_u64(b, 0) as usize
}

// How many bytes stand before component i, counted from the first of the path's bytes.
pub fn length_before(b: &[u8], i: usize) -> usize
    requires { 8 + 8 * i ≤ length b.now }
    ensures { result ≡ length_before b.now i }
{
    if i == 0 {
        return 0;
    }
    number::read_u64(b, 8 * i) as usize
}

// Component i of a packed path: the part between two accumulated lengths.
pub fn component(b: &[u8], i: usize) -> &[u8]
    requires { Packed b.now × (i < packed_count b.now) }
    ensures { result.now ≡ slice_index_or (unpack b.now) i [] }
{
    let base = 8 + 8 * component_count(b);
    let start = base + length_before(b, i);
    let end = base + length_before(b, i + 1);
    &b[start..end]
}

// How many bytes the first n components have.
pub fn path_length(b: &[u8], n: usize) -> usize
    requires { Readable b.now n }
    ensures { result ≡ path_length (path_in b.now n) }
{
    length_before(b, n)
}

// The packed form of the first n components, written over the front of out. As the body of `LentPath::put` it was tried, and the proof
// did not close: that the buffer holds bytes is known of a parameter, and not of a field.
pub fn put_prefix(b: &[u8], n: usize, out: &mut [u8])
    requires { Readable b.now n × (8 + 8 * n + path_length (path_in b.now n) ≤ length out.old) }
    ensures { out.new ≡ overwrite out.old 0 (pack (path_in b.now n)) }
{
    let table = 8 + 8 * n;
    let base = 8 + 8 * component_count(b);
    let end = base + length_before(b, n);
    number::write_u64(out, 0, n as u64);
    number::put(out, 8, &b[8..table]);
    number::put(out, table, &b[base..end]);
}
