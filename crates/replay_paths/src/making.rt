// The calls that make paths: all of them write.

use convention::Answer;
use host_construction::{
    wotskrale_path_append, wotskrale_path_append_slice, wotskrale_path_from_slices,
    wotskrale_path_new_empty, wotskrale_path_new_from_iter, wotskrale_path_new_singleton,
};
use host_least::{
    wotskrale_path_greater_but_not_prefixed, wotskrale_path_singleton_range,
    wotskrale_path_successor,
};
use replay_cases::inner::forms::Line;
use std::io::Stdout;

// A path made from another.
fn from_path<F: FnOnce(u64, u64, u64, &[u8], u64, &mut [u8]) -> Answer>(
    to: &Stdout,
    line: Line<'_>,
    call: F,
) -> Option<()>
    requires { F.IsAlwaysCallable call }
{
    line.write(to, b"nnnbno", |c, out| {
        call(c.n[0], c.n[1], c.n[2], &c.b[0], c.n[3], out)
    })
}

// Makes the call, and prints its answer.
pub(crate) fn replay(to: &Stdout, line: Line<'_>) -> Option<()> {
    match line.name {
        "new_empty" => line.write(to, b"nnno", |c, out| {
            wotskrale_path_new_empty(c.n[0], c.n[1], c.n[2], out)
        }),
        "new_singleton" => line.write(to, b"nnnbo", |c, out| {
            wotskrale_path_new_singleton(c.n[0], c.n[1], c.n[2], &c.b[0], out)
        }),
        "from_slices" => line.write(to, b"nnnbbo", |c, out| {
            wotskrale_path_from_slices(c.n[0], c.n[1], c.n[2], &c.b[0], &c.b[1], out)
        }),
        "new_from_iter" => line.write(to, b"nnnnbbo", |c, out| {
            wotskrale_path_new_from_iter(c.n[0], c.n[1], c.n[2], c.n[3], &c.b[0], &c.b[1], out)
        }),
        "append" => line.write(to, b"nnnbnbo", |c, out| {
            wotskrale_path_append(c.n[0], c.n[1], c.n[2], &c.b[0], c.n[3], &c.b[1], out)
        }),
        "append_slice" => line.write(to, b"nnnbnbbo", |c, out| {
            wotskrale_path_append_slice(
                c.n[0], c.n[1], c.n[2], &c.b[0], c.n[3], &c.b[1], &c.b[2], out,
            )
        }),
        "successor" => from_path(to, line, wotskrale_path_successor),
        "greater_but_not_prefixed" => {
            from_path(to, line, wotskrale_path_greater_but_not_prefixed)
        }
        "singleton_range" => from_path(to, line, wotskrale_path_singleton_range),
        _ => None,
    }
}
