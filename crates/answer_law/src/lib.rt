// What the answers of the calls mean is stated in specs/: in the buffers that are lent for them, of the paths and sheets that they are read of.
// There is no code here.
#![tactic(auto)]
