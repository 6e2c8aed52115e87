// A replay of stored cases through the exported calls on area maps and stores, for the gate. Crate `replay_cases` says what is read and
// printed; a line names an export without `wotskrale_`. What must be printed is computed by tools/replay.py, apart from the core.

#![tactic(auto)]

mod each;
mod maps;
mod parts;
mod stores;

use crate::parts::SheetPart;
use replay_cases::inner::input;

fn main(rt: HostRuntime) {
    input::replay_lines::<SheetPart>(&mut rt.stdin(), &rt.stdout());
}
