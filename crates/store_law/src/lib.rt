// What making a store and offering to it answer and leave, on bytes, and demand 3 on them, are in specs/. The code that does so stands
// in the crates that use this one.
#![tactic(auto)]
