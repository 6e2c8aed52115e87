// The parts of this program.

use crate::building::Building;
use crate::{making, questions};
use replay_cases::inner::forms::Line;
use replay_cases::inner::parts::Part;
use std::io::Stdout;

#[derive(Drop)]
pub(crate) enum PathPart {
    Reading,
    Making,
    Building(Building),
}

impl Part for PathPart {
    fn named(name: &[u8]) -> Option<Self> {
        match name {
            b"reading" => Some(PathPart::Reading),
            b"making" => Some(PathPart::Making),
            b"building" => Some(PathPart::Building(Building::new())),
            _ => None,
        }
    }

    fn replay(&mut self, to: &Stdout, line: Line<'_>) -> Option<()> {
        match self {
            PathPart::Reading => questions::replay(to, line),
            PathPart::Making => making::replay(to, line),
            PathPart::Building(kept) => kept.replay(to, line),
        }
    }
}
