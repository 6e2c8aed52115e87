// The parts of this program.

use crate::{areas, ranges};
use replay_cases::inner::forms::Line;
use replay_cases::inner::parts::Part;
use std::io::Stdout;

#[derive(Drop)]
pub(crate) enum GroupingPart {
    Ranges,
    Areas,
}

impl Part for GroupingPart {
    fn named(name: &[u8]) -> Option<Self> {
        match name {
            b"ranges" => Some(GroupingPart::Ranges),
            b"areas" => Some(GroupingPart::Areas),
            _ => None,
        }
    }

    fn replay(&mut self, to: &Stdout, line: Line<'_>) -> Option<()> {
        match self {
            GroupingPart::Ranges => ranges::replay(to, line),
            GroupingPart::Areas => areas::replay(to, line),
        }
    }
}
