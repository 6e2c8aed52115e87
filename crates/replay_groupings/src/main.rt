// A replay of stored cases through the exported calls on ranges, entries, areas and 3d ranges, for the gate. Crate `replay_cases` says
// what is read and printed; a line names an export without `wotskrale_`. What must be printed is computed by tools/replay.py, apart
// from the core.

#![tactic(auto)]

mod areas;
mod parts;
mod ranges;

use crate::parts::GroupingPart;
use replay_cases::inner::input;

fn main(rt: HostRuntime) {
    input::replay_lines::<GroupingPart>(&mut rt.stdin(), &rt.stdout());
}
