// Parts of a sheet's rows, and cells. They are not open to a caller: most require that what they touch lies inside.

ghost use Rattle.std.specs.Prelude.{◌≡◌, ◌+◌, ◌*◌, ◌<◌, ◌≤◌, length};
ghost use Rattle.willow.specs.Numbers.{number_at};
ghost use Rattle.willow.specs.Packed.{pack};
ghost use Rattle.number.specs.Records.{record_at};
ghost use Rattle.packed.specs.LentPaths.{path_of};
ghost use Rattle.sheet.specs.Cells.{cell_fits, path_cell, used_bytes, used_part};

use packed::inner;
use packed::lent::LentPath;
use willow::Limits;

// Record i of those of one size that begin at a place: a head, or a cell.
pub fn record_part(s: &[u8], base: usize, size: usize, i: usize) -> &[u8]
    requires { base + size * i + size ≤ length s.now }
    ensures { result.now ≡ record_at base size i s.now }
{
    let a = base + size * i;
    &s[a..a + size]
}

// Whether a cell holds a path within the limits, and zeros behind it, whatever its length and content.
pub fn cell_fits(limits: Limits, cell: &[u8]) -> bool
    ensures { result ≡ cell_fits limits cell.now }
{
    if cell.len() < 8 {
        return false;
    }
    let k = number::read_u64(cell, 0) as usize;
    if (cell.len() - 8) / 8 < k {
        return false;
    }
    let last = inner::length_before(cell, k);
    let room = cell.len() - (8 + 8 * k);
    if room < last {
        return false;
    }
    let used = 8 + 8 * k + last;
    inner::well_formed(limits, &cell[..used]) && number::is_zero(&cell[used..])
}

// The packed path of a cell that was tested.
pub fn path_part(cell: &[u8]) -> &[u8]
    requires { (8 + 8 * number_at cell.now 0 ≤ length cell.now) × (used_bytes cell.now ≤ length cell.now) }
    ensures { result.now ≡ used_part cell.now }
{
    let k = number::read_u64(cell, 0) as usize;
    let used = 8 + 8 * k + inner::length_before(cell, k);
    &cell[..used]
}

// A path written into its cell, packed, from the first byte on, and zeros behind it.
pub fn write_cell(cell: &mut [u8], path: LentPath)
    requires { length (pack (path_of path)) ≤ length cell.old }
    ensures { cell.new ≡ path_cell (length cell.old) (path_of path.entry) }
{
    let used = path.packed_length();
    let rest = cell.len() - used;
    path.put(cell);
    number::zero(cell, used, rest);
}
