// What making an area map and inserting into it answer and leave, and the theorem on every list of insertions into a fresh map. There is
// no code here: `map_making` and `area_map` have it.
#![tactic(auto)]
