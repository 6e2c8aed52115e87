// One pass over the rows in use.
#![tactic(auto, unfolding(crate::specs::Scans::met))]

ghost use Rattle.std.specs.Prelude.{◌≡◌, ◌+◌, ◌<◌, ◌≤◌};
ghost use Rattle.willow.specs.Limits.{max_word};
ghost use Rattle.willow.specs.Store.{payloads};
ghost use Rattle.entry.specs.LentEntries.{entry_of};
ghost use Rattle.store_rows.specs.HeldRows.{held_entries, held_entry};
ghost use Rattle.store_scan.specs.Scans.{met, nothing_met, scanned};

use crate::Scan;
use entry::LentEntry;
use std::cmp::Ordering;
use store_rows::rows::StoreRows;

// What an offer meets in row i.
fn scan_row(rows: StoreRows, i: usize, offered: &LentEntry, before: Scan) -> Scan
    requires { (i < rows.count) × (before.freed + (held_entry rows i).payload_length ≤ max_word) × (before.pruned ≤ i) × (before.place ≤ i) }
    ensures { result ≡ met (entry_of offered.now) before (held_entry rows.entry i) }
{
    let held = rows.entry(i);
    if held.prunes(offered) {
        return Scan {
            outdated: true,
            ..before
        };
    }
    if offered.prunes(&held) {
        return Scan {
            pruned: before.pruned + 1,
            freed: before.freed + held.head.payload_length,
            ..before
        };
    }
    match held.compare_places(offered) {
        Ordering::Less => Scan {
            place: before.place + 1,
            ..before
        },
        Ordering::Equal => Scan {
            repeat: true,
            ..before
        },
        Ordering::Greater => before,
    }
}

// What it meets in all rows in use. `fold` in place of the loop was tried, and the proof did not close: that no sum wraps is known of what
// was found before each row.
pub fn scan_rows(rows: StoreRows, offered: &LentEntry) -> Scan
    requires { payloads (held_entries rows) ≤ max_word }
    ensures { result ≡ scanned (entry_of offered.now) nothing_met (held_entries rows.entry) }
{
    let mut found = Scan::default();
    for i in 0..rows.count {
        found = scan_row(rows, i, offered, found);
    }
    found
}
