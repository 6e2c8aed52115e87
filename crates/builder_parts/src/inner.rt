// The functions on a builder's buffer that its calls rest on. They are not open to a caller: most require a buffer that was
// tested.

ghost use Rattle.std.specs.Prelude.{[], ◌∷◌, ◌++◌, ◌≡◌, ◌*◌, ◌+◌, ◌≤◌, leb, length};
ghost use Rattle.number.specs.Overwriting.{overwrite};
ghost use Rattle.packed.specs.LentPaths.{path_of};
ghost use Rattle.willow.specs.Paths.{path_length};
ghost use Rattle.builder_parts.specs.Buffer.{agrees_with, components_in, Next, partial, size_of};

use extension::inner::parts;
use packed::lent::LentPath;

// Whether a buffer is long enough for a path of so many bytes and components: a sum of 128 bits, which cannot wrap.
pub fn long_enough(bytes: u64, count: u64, out: &[u8]) -> bool
    ensures { result ≡ leb (size_of bytes count) (length out.now) }
{
    8 + 8 * u128::from(count) + u128::from(bytes) <= out.len() as u128
}

// Whether a buffer with room for its table agrees with the counts. Each number of the table is read once: the lengths that are
// there by their steps, those to come as zero bytes.
pub fn agrees(mcl: u64, most: u64, count: u64, appended: u64, out: &[u8]) -> bool
    requires { 8 + 8 * count ≤ length out.now }
    ensures { result ≡ agrees_with mcl most count appended out.now }
{
    number::read_u64(out, 0) == count
        && appended <= count
        && packed::inner::steps_within(mcl, most, out, appended as usize)
        && number::is_zero(&out[8 + 8 * appended as usize..8 + 8 * count as usize])
}

// The count and zeros for the lengths to come, written over the front of out.
pub fn put_start(count: u64, out: &mut [u8])
    requires { 8 + 8 * count ≤ length out.old }
    ensures { out.new ≡ overwrite out.old 0 (partial count []) }
{
    number::write_u64(out, 0, count);
    number::zero(out, 8, 8 * count as usize);
}

// The count, the components of a lent path and zeros for the lengths to come, written over the front of out. Table and bytes are
// each copied in one go.
pub fn put_prefix(count: u64, path: LentPath, out: &mut [u8])
    requires { (length (path_of path) ≤ count) × (8 + 8 * count + path_length (path_of path) ≤ length out.old) }
    ensures { out.new ≡ overwrite out.old 0 (partial count (path_of path.entry)) }
{
    let (table, bytes) = parts(path.bytes, path.count);
    let blank = 8 + table.len();
    let front = 8 + 8 * count as usize;
    number::write_u64(out, 0, count);
    number::put(out, 8, table);
    number::zero(out, blank, front - blank);
    number::put(out, front, bytes);
}

// The accumulated length and the bytes of the next component, written behind those that are there. The count and how many are appended
// are numbers of the builder, whose struct stands above this crate, beside its tests.
pub fn put_next(count: u64, appended: u64, c: &[u8], out: &mut [u8])
    requires { Next count appended c.now out.old }
    ensures { out.new ≡ overwrite out.old 0 (partial count (components_in count appended out.old ++ (c.now ∷ []))) }
{
    let n = appended as usize;
    let len = packed::inner::length_before(out, n);
    let end = 8 + 8 * count as usize + len;
    number::write_u64(out, 8 + 8 * n, (len + c.len()) as u64);
    number::put(out, end, c);
}
