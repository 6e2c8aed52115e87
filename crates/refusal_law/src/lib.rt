// Which number a call is refused with is stated in specs/, for every call on paths, groupings, kinds, sheets and key lines, and for those that
// start a builder; what a builder appends and builds is refused with stands in crate builder_law. There is no code here.
#![tactic(auto)]
