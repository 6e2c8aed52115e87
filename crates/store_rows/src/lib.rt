// The rows of a store's sheet as entries: heads and paths read where they stand, and compared. They are not open to a caller.
#![tactic(auto)]

pub mod entries;
pub mod rows;
pub mod sizes;
