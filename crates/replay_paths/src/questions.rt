// The calls that read, relate and write paths.

use convention::Answer;
use host_reading::{
    wotskrale_component_test, wotskrale_path_component_count, wotskrale_path_component_length,
    wotskrale_path_create_prefix, wotskrale_path_is_empty, wotskrale_path_length,
    wotskrale_path_length_of_prefix, wotskrale_path_test,
};
use host_relation::{
    wotskrale_path_compare, wotskrale_path_equal, wotskrale_path_is_prefix_of,
    wotskrale_path_is_prefixed_by, wotskrale_path_is_related, wotskrale_path_longest_common_prefix,
};
use host_writing::{
    wotskrale_path_write_component, wotskrale_path_write_longest_common_prefix,
    wotskrale_path_write_prefix,
};
use replay_cases::inner::forms::Line;
use std::io::Stdout;

// A question on one path.
fn on_one<F: FnOnce(u64, u64, u64, &[u8], u64) -> Answer>(
    to: &Stdout,
    line: Line<'_>,
    call: F,
) -> Option<()>
    requires { F.IsAlwaysCallable call }
{
    line.ask(
        to,
        b"nnnbn",
        |c| call(c.n[0], c.n[1], c.n[2], &c.b[0], c.n[3]),
    )
}

// A question on one path and a place in it.
fn at_place<F: FnOnce(u64, u64, u64, &[u8], u64, u64) -> Answer>(
    to: &Stdout,
    line: Line<'_>,
    call: F,
) -> Option<()>
    requires { F.IsAlwaysCallable call }
{
    line.ask(
        to,
        b"nnnbnn",
        |c| call(c.n[0], c.n[1], c.n[2], &c.b[0], c.n[3], c.n[4]),
    )
}

// A question on two paths.
fn on_two<F: FnOnce(u64, u64, u64, &[u8], u64, &[u8], u64) -> Answer>(
    to: &Stdout,
    line: Line<'_>,
    call: F,
) -> Option<()>
    requires { F.IsAlwaysCallable call }
{
    line.ask(to, b"nnnbnbn", |c| {
        call(c.n[0], c.n[1], c.n[2], &c.b[0], c.n[3], &c.b[1], c.n[4])
    })
}

// A call that writes a part of a path, up to a place in it.
fn write<F: FnOnce(u64, u64, u64, &[u8], u64, u64, &mut [u8]) -> Answer>(
    to: &Stdout,
    line: Line<'_>,
    call: F,
) -> Option<()>
    requires { F.IsAlwaysCallable call }
{
    line.write(to, b"nnnbnno", |c, out| {
        call(c.n[0], c.n[1], c.n[2], &c.b[0], c.n[3], c.n[4], out)
    })
}

// Makes the call, and prints its answer.
pub(crate) fn replay(to: &Stdout, line: Line<'_>) -> Option<()> {
    match line.name {
        "component_test" => line.ask(to, b"nnnb", |c| {
            wotskrale_component_test(c.n[0], c.n[1], c.n[2], &c.b[0])
        }),
        "test" => line.ask(to, b"nnnbn", |c| {
            wotskrale_path_test(c.n[0], c.n[1], c.n[2], &c.b[0], c.n[3])
        }),
        "component_count" => on_one(to, line, wotskrale_path_component_count),
        "is_empty" => on_one(to, line, wotskrale_path_is_empty),
        "length" => on_one(to, line, wotskrale_path_length),
        "length_of_prefix" => at_place(to, line, wotskrale_path_length_of_prefix),
        "create_prefix" => at_place(to, line, wotskrale_path_create_prefix),
        "component_length" => at_place(to, line, wotskrale_path_component_length),
        "compare" => on_two(to, line, wotskrale_path_compare),
        "equal" => on_two(to, line, wotskrale_path_equal),
        "is_prefix_of" => on_two(to, line, wotskrale_path_is_prefix_of),
        "is_prefixed_by" => on_two(to, line, wotskrale_path_is_prefixed_by),
        "is_related" => on_two(to, line, wotskrale_path_is_related),
        "longest_common_prefix" => on_two(to, line, wotskrale_path_longest_common_prefix),
        "write_component" => write(to, line, wotskrale_path_write_component),
        "write_prefix" => write(to, line, wotskrale_path_write_prefix),
        "write_longest_common_prefix" => line.write(to, b"nnnbnbno", |c, out| {
            wotskrale_path_write_longest_common_prefix(
                c.n[0], c.n[1], c.n[2], &c.b[0], c.n[3], &c.b[1], c.n[4], out,
            )
        }),
        _ => None,
    }
}
