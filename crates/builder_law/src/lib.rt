// What the builder's calls refuse and leave (path/builder.rs), and the theorems on what they accept and on whole runs. There is no code
// here: `builder` has it.
#![tactic(auto)]
