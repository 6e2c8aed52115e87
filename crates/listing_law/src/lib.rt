// What listing the rules of an area map answers and writes, and what that means. There is no code here: `map_listing` has it.
#![tactic(auto)]
