// What an offer that is taken writes into a store's sheet (document 01, "Sheets"). Nothing here is open to a caller; see module `inner`.
#![tactic(auto)]

pub mod inner;
