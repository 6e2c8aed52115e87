// The shape of a sheet, and the one place that says where the rows of both sheets stand.

ghost use Rattle.std.specs.Prelude.{◌&&◌, ◌≡◌, ◌+◌, ◌-◌, ◌*◌, ◌<◌, ◌≤◌, drop, length, take};
ghost use Rattle.willow.specs.Limits.{max_word};
ghost use Rattle.number.specs.Overwriting.{all_zero};
ghost use Rattle.sheet.specs.Rows.{Room, cell, cells_from, head, row_at, sheet_length};

use crate::inner::record_part;
use number::is_zero;

// The bytes before the heads, those of a head and of a cell, and how many rows there are.
#[derive(Clone, Copy)]
pub struct Shape {
    pub front: usize,
    pub head_size: usize,
    pub cell_size: usize,
    pub capacity: usize,
}

impl Shape {
    // Where head i begins; behind the last head, where the cells begin.
    pub fn head_place(self, i: usize) -> usize
        requires { (i ≤ self.capacity) × (sheet_length self ≤ max_word) }
        ensures { result ≡ self.front + self.head_size * i }
    {
        self.front + self.head_size * i
    }

    // Where cell i begins; behind the last cell, where the sheet ends.
    pub fn cell_place(self, i: usize) -> usize
        requires { (i ≤ self.capacity) × (sheet_length self ≤ max_word) }
        ensures { result ≡ cells_from self + self.cell_size * i }
    {
        self.head_place(self.capacity) + self.cell_size * i
    }

    // How many bytes a sheet has.
    pub fn length(self) -> usize
        requires { sheet_length self ≤ max_word }
        ensures { result ≡ sheet_length self }
    {
        self.cell_place(self.capacity)
    }

    // The head of row i.
    pub fn head(self, s: &[u8], i: usize) -> &[u8]
        requires { Room self s.now × (i < self.capacity) }
        ensures size { length result.now ≡ self.head_size }
        ensures part { result.now ≡ head (row_at self s.now i) }
    {
        record_part(s, self.front, self.head_size, i)
    }

    // The cell of row i.
    pub fn cell(self, s: &[u8], i: usize) -> &[u8]
        requires { Room self s.now × (i < self.capacity) }
        ensures { result.now ≡ cell (row_at self s.now i) }
    {
        record_part(s, self.head_place(self.capacity), self.cell_size, i)
    }

    // The heads from row n on.
    fn heads_behind(self, s: &[u8], n: usize) -> &[u8]
        requires { Room self s.now × (n ≤ self.capacity) }
        ensures { result.now ≡ take (self.head_size * (self.capacity - n)) (drop (self.front + self.head_size * n) s.now) }
    {
        &s[self.head_place(n)..self.head_place(self.capacity)]
    }

    // The cells from row n on.
    fn cells_behind(self, s: &[u8], n: usize) -> &[u8]
        requires { Room self s.now × (n ≤ self.capacity) }
        ensures { result.now ≡ take (self.cell_size * (self.capacity - n)) (drop (cells_from self + self.cell_size * n) s.now) }
    {
        &s[self.cell_place(n)..self.length()]
    }

    // Whether all rows from row n on are zeros.
    pub fn unused_clear(self, s: &[u8], n: usize) -> bool
        requires { Room self s.now × (n ≤ self.capacity) }
        ensures { result ≡ (all_zero (take (self.head_size * (self.capacity - n)) (drop (self.front + self.head_size * n) s.now)) && all_zero (take (self.cell_size * (self.capacity - n)) (drop (cells_from self + self.cell_size * n) s.now))) }
    {
        is_zero(self.heads_behind(s, n)) && is_zero(self.cells_behind(s, n))
    }
}
