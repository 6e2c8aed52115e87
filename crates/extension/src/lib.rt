// A lent path lengthened by slices, for the calls that make paths (`construction`): one admission, and one way of writing.
#![tactic(auto)]

pub mod extended;
pub mod extending;
pub mod inner;
