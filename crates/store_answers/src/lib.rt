// What an offer is answered, and which answer it is by what it met among the held entries.
#![tactic(auto)]

pub mod inner;

// What an offer that is not refused is answered; taken comes with how many entries it pruned.
#[derive(Clone, Copy)]
pub enum Offered {
    Outdated,
    Repeat,
    Taken(u64),
}
