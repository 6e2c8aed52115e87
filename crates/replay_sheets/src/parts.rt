// The parts of this program, each with the sheet that is kept.

use crate::{maps, stores};
use replay_cases::inner::forms::Line;
use replay_cases::inner::kept::Sheet;
use replay_cases::inner::parts::Part;
use std::io::Stdout;

#[derive(Drop)]
pub(crate) enum SheetPart {
    Maps(Sheet),
    Stores(Sheet),
}

impl Part for SheetPart {
    fn named(name: &[u8]) -> Option<Self> {
        match name {
            b"maps" => Some(SheetPart::Maps(Sheet::new())),
            b"stores" => Some(SheetPart::Stores(Sheet::new())),
            _ => None,
        }
    }

    fn replay(&mut self, to: &Stdout, line: Line<'_>) -> Option<()> {
        match self {
            SheetPart::Maps(map) => maps::replay(to, line, map),
            SheetPart::Stores(store) => stores::replay(to, line, store),
        }
    }
}
