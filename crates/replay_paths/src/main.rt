// A replay of stored cases through the exported calls on paths, for the gate. Crate `replay_cases` says what is read and printed; a line
// names an export without `wotskrale_`, and without `path_` or `builder_` behind that. What must be printed is computed by
// tools/replay.py, apart from the core.

#![tactic(auto)]

mod building;
mod making;
mod parts;
mod questions;

use crate::parts::PathPart;
use replay_cases::inner::input;

fn main(rt: HostRuntime) {
    input::replay_lines::<PathPart>(&mut rt.stdin(), &rt.stdout());
}
