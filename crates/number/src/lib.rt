// Bytes in lent memory: 8-byte little-endian numbers, copies, moves, the zero test and the zero fill.
// These are the leaves under every call. They are not open to a caller: all but `is_zero` require that what they touch lies inside.
#![tactic(auto)]

ghost use Rattle.std.specs.Prelude.{◌≡◌, ◌+◌, ◌≤◌, length, take, drop};
ghost use Rattle.willow.specs.Numbers.{le, number_at};
ghost use Rattle.number.specs.Overwriting.{all_zero, overwrite, zeros};

// The 8-byte number at a place.
pub fn read_u64(s: &[u8], at: usize) -> u64
    requires { at + 8 ≤ length s.now }
    ensures { result ≡ number_at s.now at }
{
    u64::from_le_bytes(s[at..at + 8].try_into().unwrap())
}

// The number x written at a place, in 8 bytes.
pub fn write_u64(s: &mut [u8], at: usize, x: u64)
    requires { at + 8 ≤ length s.old }
    ensures { s.new ≡ overwrite s.old at (le 8 x) }
{
    put(s, at, &x.to_le_bytes());
}

// src written over s from a place on. By a loop over places: `copy_from_slice` becomes a call of the C library's `memmove`, which archives
// for C then need from outside, and which short writes pay for (docs/DESIGN-PASS.md).
pub fn put(s: &mut [u8], at: usize, src: &[u8])
    requires { at + length src.now ≤ length s.old }
    ensures { s.new ≡ overwrite s.old at src.now }
{
    for i in 0..src.len() {
        s[at + i] = src[i];
    }
}

// n bytes written again at another place: none is lost where the two overlap.
pub fn move_within(s: &mut [u8], from: usize, to: usize, n: usize)
    requires { (from + n ≤ length s.old) × (to + n ≤ length s.old) }
    ensures { s.new ≡ overwrite s.old to (take n (drop from s.old)) }
{
    s.copy_within(from..from + n, to);
}

// Whether every byte is zero. None is asked early, as `all` and `&&` would, so that it is compiled to wide reads: 20 times as fast.
pub fn is_zero(s: &[u8]) -> bool
    ensures { result ≡ all_zero s.now }
{
    s.iter().fold(true, |before, &b| before & (b == 0))
}

// n zero bytes written from a place on.
pub fn zero(s: &mut [u8], at: usize, n: usize)
    requires { at + n ≤ length s.old }
    ensures { s.new ≡ overwrite s.old at (zeros n) }
{
    s[at..at + n].fill(0);
}
