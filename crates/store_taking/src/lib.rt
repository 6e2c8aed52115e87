// An offer to a store whose sheet, namespace and path were tested (document 01, "Sheets"): decided, and filed if it is taken. Nothing here
// is open to a caller; see module `inner`.
#![tactic(auto)]

pub mod inner;
