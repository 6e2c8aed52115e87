// The calls on area maps, with the map that is kept.

use crate::each;
use host_map::{
    wotskrale_map_fresh, wotskrale_map_insert, wotskrale_map_intersecting, wotskrale_map_test,
};
use host_map_reading::{
    RuleAnswer, wotskrale_map_count, wotskrale_map_rule, wotskrale_map_rule_path,
};
use replay_cases::inner::answers::Row;
use replay_cases::inner::forms::Line;
use replay_cases::inner::kept::Sheet;
use replay_cases::inner::{answers, kept};
use std::io::Stdout;

fn fresh(to: &Stdout, line: Line<'_>, map: &mut Sheet) -> Option<()> {
    let c = line.read(b"nnnn")?;
    let a = wotskrale_map_fresh(c.n[0], c.n[1], c.n[2], c.n[3], map);
    answers::print_with(to, a, map);
    Some(())
}

fn insert(to: &Stdout, line: Line<'_>, map: &mut Sheet) -> Option<()> {
    let c = line.read(b"nnbnnnnn")?;
    let a = wotskrale_map_insert(
        map, c.n[0], c.n[1], &c.b[0], c.n[2], c.n[3], c.n[4], c.n[5], c.n[6],
    );
    answers::print_with(to, a, map);
    Some(())
}

// An answer as a row. It is no `From`, since an impl names a type of its own crate, and both of these are others'.
fn rule_row(a: RuleAnswer) -> Row<8> {
    Row([
        a.status,
        a.subspace_kind,
        a.subspace,
        a.count,
        a.start,
        a.end_kind,
        a.end,
        a.value,
    ])
}

// Makes the call, and prints its answer.
pub(crate) fn replay(to: &Stdout, line: Line<'_>, map: &mut Sheet) -> Option<()> {
    match line.name {
        "map_fresh" => fresh(to, line, map),
        "map_insert" => insert(to, line, map),
        "map_test_each" => each::replay(to, line, map, wotskrale_map_test),
        "map_test" => line.ask(to, b"", |_| wotskrale_map_test(map)),
        "map_count" => line.ask(to, b"", |_| wotskrale_map_count(map)),
        "map_rule" => line.ask(to, b"n", |c| rule_row(wotskrale_map_rule(map, c.n[0]))),
        "map_rule_path" => line.write(to, b"no", |c, out| {
            wotskrale_map_rule_path(map, c.n[0], out)
        }),
        "map_intersecting" => line.write(to, b"nnbnnnno", |c, out| {
            wotskrale_map_intersecting(
                map, c.n[0], c.n[1], &c.b[0], c.n[2], c.n[3], c.n[4], c.n[5], out,
            )
        }),
        _ => kept::keep(line, map),
    }
}
