// The parts that the replaying programs share. They are not open to a caller.

pub mod answers;
pub mod forms;
pub mod input;
pub mod kept;
pub mod parts;
