// Bytes with room for a store, of whose rows the first ones hold entries.

ghost use Rattle.store_rows.specs.EntryRows.{RowsReadable};

use crate::sizes::StoreSizes;

// The bytes, the sizes of the store, and how many rows are in use.
#[derive(Clone, Copy)]
pub struct StoreRows<'a> {
    pub bytes: &'a [u8],
    pub sizes: StoreSizes,
    pub count: usize,
    ghost readable: { RowsReadable sizes.limits sizes.capacity count bytes.now },
}
