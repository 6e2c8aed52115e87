// What the answers on ends beside values and on the parts of ranges mean, of numbers and of paths, is stated in specs/. There is no code here.
#![tactic(auto)]
