// The parts of a program.

use crate::inner::forms::Line;
use std::io::Stdout;

// A part, with what it keeps from line to line.
pub trait Part: Drop {
    // The part of this name, which has kept nothing yet.
    fn named(name: &[u8]) -> Option<Self>;

    // Carries a line of the part out. It gives none for one that cannot be read, which changes nothing.
    fn replay(&mut self, to: &Stdout, line: Line<'_>) -> Option<()>;
}

// Carries a line out: one that starts a part, or one of the part that is replayed, if one has been started.
pub fn replay<P: Part>(to: &Stdout, text: &[u8], part: &mut Option<P>) -> Option<()> {
    let line = Line::new(text)?;
    if line.name == "part" {
        *part = Some(P::named(line.piece(1)?)?);
        return Some(());
    }
    part.as_mut()?.replay(to, line)
}
