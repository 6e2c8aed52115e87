// The calls on ranges of numbers, ranges of paths and entries.

use host_entry::{
    wotskrale_entry_compare, wotskrale_entry_compare_places, wotskrale_entry_equal,
    wotskrale_entry_is_newer_than, wotskrale_entry_is_pruned_by, wotskrale_entry_prunes,
};
use host_path_range::{
    wotskrale_path_range_compare, wotskrale_path_range_compare_ends,
    wotskrale_path_range_end_above, wotskrale_path_range_includes,
    wotskrale_path_range_includes_range, wotskrale_path_range_new_closed,
};
use host_path_range_intersection::{SidesAnswer, wotskrale_path_range_intersection};
use host_range::{
    RangeAnswer, wotskrale_range_compare, wotskrale_range_compare_ends, wotskrale_range_end_above,
    wotskrale_range_includes, wotskrale_range_includes_range, wotskrale_range_intersection,
    wotskrale_range_is_open, wotskrale_range_new_closed,
};
use replay_cases::inner::answers::Row;
use replay_cases::inner::forms::Line;
use std::io::Stdout;

// A bound `Fn` takes at most 12 arguments, so macros write the arguments that several longer calls have alike.

// The limits, and two ranges of paths.
const TWO_PATH_RANGES: &[u8] = b"nnnbnnbnbnnbn";

macro_rules! two_path_ranges {
    ($call:ident, $c:ident) => {
        $call(
            $c.n[0], $c.n[1], $c.n[2], &$c.b[0], $c.n[3], $c.n[4], &$c.b[1], $c.n[5], &$c.b[2], $c.n[6],
            $c.n[7], &$c.b[3], $c.n[8],
        )
    };
}

// The limits, a namespace and the rest of an entry, and those of another.
const TWO_ENTRIES: &[u8] = b"nnnnnbnnndnnbnnnd";

macro_rules! two_entries {
    ($call:ident, $c:ident) => {
        $call(
            $c.n[0], $c.n[1], $c.n[2], $c.n[3], $c.n[4], &$c.b[0], $c.n[5], $c.n[6], $c.n[7], &$c.d[0], $c.n[8],
            $c.n[9], &$c.b[1], $c.n[10], $c.n[11], $c.n[12], &$c.d[1],
        )
    };
}

// Answers as rows. They are no `From`, since an impl names a type of its own crate, and both of these are others'.
fn range_row(a: RangeAnswer) -> Row<4> {
    Row([a.status, a.start, a.end_kind, a.end])
}

fn sides_row(a: SidesAnswer) -> Row<4> {
    Row([a.status, a.start, a.end_kind, a.end])
}

// Makes the call, and prints its answer.
pub(crate) fn replay(to: &Stdout, line: Line<'_>) -> Option<()> {
    match line.name {
        "range_new_closed" => line.ask(to, b"nn", |c| {
            range_row(wotskrale_range_new_closed(c.n[0], c.n[1]))
        }),
        "range_intersection" => line.ask(to, b"nnnnnn", |c| {
            range_row(wotskrale_range_intersection(c.n[0], c.n[1], c.n[2], c.n[3], c.n[4], c.n[5]))
        }),
        "range_end_above" => line.ask(to, b"nnn", |c| {
            wotskrale_range_end_above(c.n[0], c.n[1], c.n[2])
        }),
        "range_compare_ends" => line.ask(to, b"nnnn", |c| {
            wotskrale_range_compare_ends(c.n[0], c.n[1], c.n[2], c.n[3])
        }),
        "range_is_open" => line.ask(to, b"nnn", |c| {
            wotskrale_range_is_open(c.n[0], c.n[1], c.n[2])
        }),
        "range_includes" => line.ask(to, b"nnnn", |c| {
            wotskrale_range_includes(c.n[0], c.n[1], c.n[2], c.n[3])
        }),
        "range_includes_range" => line.ask(to, b"nnnnnn", |c| {
            wotskrale_range_includes_range(c.n[0], c.n[1], c.n[2], c.n[3], c.n[4], c.n[5])
        }),
        "range_compare" => line.ask(to, b"nnnnnn", |c| {
            wotskrale_range_compare(c.n[0], c.n[1], c.n[2], c.n[3], c.n[4], c.n[5])
        }),
        _ => on_paths(to, line),
    }
}

fn on_paths(to: &Stdout, line: Line<'_>) -> Option<()> {
    match line.name {
        "path_range_intersection" => line.ask(to, TWO_PATH_RANGES, |c| {
            sides_row(two_path_ranges!(wotskrale_path_range_intersection, c))
        }),
        "path_range_end_above" => line.ask(to, b"nnnnbnbn", |c| {
            wotskrale_path_range_end_above(
                c.n[0], c.n[1], c.n[2], c.n[3], &c.b[0], c.n[4], &c.b[1], c.n[5],
            )
        }),
        "path_range_compare_ends" => line.ask(to, b"nnnnbnnbn", |c| {
            wotskrale_path_range_compare_ends(
                c.n[0], c.n[1], c.n[2], c.n[3], &c.b[0], c.n[4], c.n[5], &c.b[1], c.n[6],
            )
        }),
        "path_range_new_closed" => line.ask(to, b"nnnbnbn", |c| {
            wotskrale_path_range_new_closed(
                c.n[0], c.n[1], c.n[2], &c.b[0], c.n[3], &c.b[1], c.n[4],
            )
        }),
        "path_range_includes" => line.ask(to, b"nnnbnnbnbn", |c| {
            wotskrale_path_range_includes(
                c.n[0], c.n[1], c.n[2], &c.b[0], c.n[3], c.n[4], &c.b[1], c.n[5], &c.b[2], c.n[6],
            )
        }),
        "path_range_includes_range" => line.ask(to, TWO_PATH_RANGES, |c| {
            two_path_ranges!(wotskrale_path_range_includes_range, c)
        }),
        "path_range_compare" => line.ask(to, TWO_PATH_RANGES, |c| {
            two_path_ranges!(wotskrale_path_range_compare, c)
        }),
        _ => on_entries(to, line),
    }
}

fn on_entries(to: &Stdout, line: Line<'_>) -> Option<()> {
    match line.name {
        "entry_is_newer_than" => line.ask(to, b"nndnnd", |c| {
            wotskrale_entry_is_newer_than(c.n[0], c.n[1], &c.d[0], c.n[2], c.n[3], &c.d[1])
        }),
        "entry_compare_places" => line.ask(to, b"nnnnbnnbn", |c| {
            wotskrale_entry_compare_places(
                c.n[0], c.n[1], c.n[2], c.n[3], &c.b[0], c.n[4], c.n[5], &c.b[1], c.n[6],
            )
        }),
        "entry_is_pruned_by" => line.ask(to, TWO_ENTRIES, |c| {
            two_entries!(wotskrale_entry_is_pruned_by, c)
        }),
        "entry_prunes" => line.ask(to, TWO_ENTRIES, |c| two_entries!(wotskrale_entry_prunes, c)),
        "entry_equal" => line.ask(to, TWO_ENTRIES, |c| two_entries!(wotskrale_entry_equal, c)),
        "entry_compare" => line.ask(to, TWO_ENTRIES, |c| {
            two_entries!(wotskrale_entry_compare, c)
        }),
        _ => None,
    }
}
