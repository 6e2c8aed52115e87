// The parts of the text. They are not open to a caller.

pub mod buffers;
pub mod pieces;
