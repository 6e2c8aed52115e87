// The calls on areas, areas of interest and 3d ranges.

use host_area::{
    wotskrale_area_almost_includes_area, wotskrale_area_compare,
    wotskrale_area_could_be_pruned_by_triplet, wotskrale_area_includes_area,
    wotskrale_area_includes_triplet,
};
use host_area_intersection::{AreaAnswer, wotskrale_area_intersection};
use host_area_of_interest::{
    InterestAnswer, wotskrale_area_of_interest_compare, wotskrale_area_of_interest_intersection,
};
use host_range_3d::{
    wotskrale_range_3d_compare, wotskrale_range_3d_could_be_pruned_by_triplet,
    wotskrale_range_3d_includes_range, wotskrale_range_3d_includes_triplet,
};
use host_range_3d_conversion::{ConvertedAnswer, wotskrale_range_3d_from_area};
use host_range_3d_intersection::{Range3dAnswer, wotskrale_range_3d_intersection};
use replay_cases::inner::answers::Row;
use replay_cases::inner::forms::Line;
use std::io::Stdout;

// A bound `Fn` takes at most 12 arguments, so macros write the arguments that several longer calls have alike.

// The limits, an area, and the triplet of an entry.
const AREA_AND_TRIPLET: &[u8] = b"nnnnnbnnnnnbnn";

macro_rules! area_and_triplet {
    ($call:ident, $c:ident) => {
        $call(
            $c.n[0], $c.n[1], $c.n[2], $c.n[3], $c.n[4], &$c.b[0], $c.n[5], $c.n[6], $c.n[7], $c.n[8], $c.n[9],
            &$c.b[1], $c.n[10], $c.n[11],
        )
    };
}

// The limits, and two areas.
const TWO_AREAS: &[u8] = b"nnnnnbnnnnnnbnnnn";

macro_rules! two_areas {
    ($call:ident, $c:ident) => {
        $call(
            $c.n[0], $c.n[1], $c.n[2], $c.n[3], $c.n[4], &$c.b[0], $c.n[5], $c.n[6], $c.n[7], $c.n[8], $c.n[9],
            $c.n[10], &$c.b[1], $c.n[11], $c.n[12], $c.n[13], $c.n[14],
        )
    };
}

// The limits, and two areas of interest.
const TWO_INTERESTS: &[u8] = b"nnnnnbnnnnnnnnbnnnnnn";

macro_rules! two_interests {
    ($call:ident, $c:ident) => {
        $call(
            $c.n[0], $c.n[1], $c.n[2], $c.n[3], $c.n[4], &$c.b[0], $c.n[5], $c.n[6], $c.n[7], $c.n[8], $c.n[9],
            $c.n[10], $c.n[11], $c.n[12], &$c.b[1], $c.n[13], $c.n[14], $c.n[15], $c.n[16], $c.n[17], $c.n[18],
        )
    };
}

// The limits, a 3d range, and the triplet of an entry.
const RANGE_AND_TRIPLET: &[u8] = b"nnnnnnbnnbnnnnnbnn";

macro_rules! range_and_triplet {
    ($call:ident, $c:ident) => {
        $call(
            $c.n[0], $c.n[1], $c.n[2], $c.n[3], $c.n[4], $c.n[5], &$c.b[0], $c.n[6], $c.n[7], &$c.b[1], $c.n[8],
            $c.n[9], $c.n[10], $c.n[11], $c.n[12], &$c.b[2], $c.n[13], $c.n[14],
        )
    };
}

// The limits, and two 3d ranges.
const TWO_RANGES: &[u8] = b"nnnnnnbnnbnnnnnnnbnnbnnnn";

macro_rules! two_ranges {
    ($call:ident, $c:ident) => {
        $call(
            $c.n[0], $c.n[1], $c.n[2], $c.n[3], $c.n[4], $c.n[5], &$c.b[0], $c.n[6], $c.n[7], &$c.b[1], $c.n[8],
            $c.n[9], $c.n[10], $c.n[11], $c.n[12], $c.n[13], $c.n[14], &$c.b[2], $c.n[15], $c.n[16], &$c.b[3],
            $c.n[17], $c.n[18], $c.n[19], $c.n[20],
        )
    };
}

// Answers as rows. They are no `From`, since an impl names a type of its own crate, and both of these are others'.
fn area_row(a: AreaAnswer) -> Row<8> {
    Row([
        a.status,
        a.whose,
        a.count,
        a.subspace_kind,
        a.subspace,
        a.start,
        a.end_kind,
        a.end,
    ])
}

fn interest_row(a: InterestAnswer) -> Row<10> {
    Row([
        a.status,
        a.whose,
        a.count,
        a.subspace_kind,
        a.subspace,
        a.start,
        a.end_kind,
        a.end,
        a.max_count,
        a.max_size,
    ])
}

fn sides_row(a: Range3dAnswer) -> Row<10> {
    Row([
        a.status,
        a.subspace_start,
        a.subspace_end_kind,
        a.subspace_end,
        a.path_start,
        a.path_end_kind,
        a.path_end,
        a.time_start,
        a.time_end_kind,
        a.time_end,
    ])
}

fn converted_row(a: ConvertedAnswer) -> Row<11> {
    Row([
        a.status,
        a.subspace_start,
        a.subspace_end_kind,
        a.subspace_end,
        a.start_count,
        a.path_end_kind,
        a.end_count,
        a.written,
        a.time_start,
        a.time_end_kind,
        a.time_end,
    ])
}

// Makes the call, and prints its answer.
pub(crate) fn replay(to: &Stdout, line: Line<'_>) -> Option<()> {
    match line.name {
        "area_intersection" => line.ask(to, TWO_AREAS, |c| {
            area_row(two_areas!(wotskrale_area_intersection, c))
        }),
        "area_of_interest_intersection" => line.ask(to, TWO_INTERESTS, |c| {
            interest_row(two_interests!(wotskrale_area_of_interest_intersection, c))
        }),
        "area_includes_triplet" => line.ask(to, AREA_AND_TRIPLET, |c| {
            area_and_triplet!(wotskrale_area_includes_triplet, c)
        }),
        "area_could_be_pruned_by_triplet" => line.ask(to, AREA_AND_TRIPLET, |c| {
            area_and_triplet!(wotskrale_area_could_be_pruned_by_triplet, c)
        }),
        "area_includes_area" => line.ask(to, TWO_AREAS, |c| {
            two_areas!(wotskrale_area_includes_area, c)
        }),
        "area_almost_includes_area" => line.ask(to, TWO_AREAS, |c| {
            two_areas!(wotskrale_area_almost_includes_area, c)
        }),
        "area_compare" => line.ask(to, TWO_AREAS, |c| two_areas!(wotskrale_area_compare, c)),
        "area_of_interest_compare" => line.ask(to, TWO_INTERESTS, |c| {
            two_interests!(wotskrale_area_of_interest_compare, c)
        }),
        _ => on_ranges(to, line),
    }
}

fn on_ranges(to: &Stdout, line: Line<'_>) -> Option<()> {
    match line.name {
        "range_3d_intersection" => line.ask(to, TWO_RANGES, |c| {
            sides_row(two_ranges!(wotskrale_range_3d_intersection, c))
        }),
        "range_3d_from_area" => line.write(to, b"nnnnnbnnnno", |c, out| {
            converted_row(wotskrale_range_3d_from_area(
                c.n[0], c.n[1], c.n[2], c.n[3], c.n[4], &c.b[0], c.n[5], c.n[6], c.n[7], c.n[8],
                out,
            ))
        }),
        "range_3d_includes_triplet" => line.ask(to, RANGE_AND_TRIPLET, |c| {
            range_and_triplet!(wotskrale_range_3d_includes_triplet, c)
        }),
        "range_3d_could_be_pruned_by_triplet" => line.ask(to, RANGE_AND_TRIPLET, |c| {
            range_and_triplet!(wotskrale_range_3d_could_be_pruned_by_triplet, c)
        }),
        "range_3d_includes_range" => line.ask(to, TWO_RANGES, |c| {
            two_ranges!(wotskrale_range_3d_includes_range, c)
        }),
        "range_3d_compare" => line.ask(to, TWO_RANGES, |c| {
            two_ranges!(wotskrale_range_3d_compare, c)
        }),
        _ => None,
    }
}
