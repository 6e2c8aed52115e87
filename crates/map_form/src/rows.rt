// The rows of bytes that have room for a map, whatever the bytes are: each is a head and a cell.

ghost use Rattle.std.specs.Prelude.{◌<◌, ◌≡◌, length};
ghost use Rattle.willow.specs.Limits.{Accepted};
ghost use Rattle.sheet.specs.Rows.{Room, cell, head, row_at};
ghost use Rattle.map_form.specs.Maps.{map_head_size, map_shape};

use crate::sizes::MapSizes;

// Bytes, and accepted sizes of a map for which they have room.
#[derive(Clone, Copy)]
pub struct MapRows<'a> {
    pub bytes: &'a [u8],
    pub sizes: MapSizes,
    ghost accepted: { Accepted sizes.limits },
    ghost room: { Room (map_shape sizes) bytes.now },
}

impl<'a> MapRows<'a> {
    // The head of row i.
    pub fn head(self, i: usize) -> &'a [u8]
        requires { i < self.sizes.capacity }
        ensures size { length result.now ≡ map_head_size }
        ensures part { result.now ≡ head (row_at (map_shape self.entry.sizes) self.entry.bytes.now i) }
    {
        self.sizes.shape().head(self.bytes, i)
    }

    // The cell of row i.
    pub fn cell(self, i: usize) -> &'a [u8]
        requires { i < self.sizes.capacity }
        ensures { result.now ≡ cell (row_at (map_shape self.entry.sizes) self.entry.bytes.now i) }
    {
        self.sizes.shape().cell(self.bytes, i)
    }
}
