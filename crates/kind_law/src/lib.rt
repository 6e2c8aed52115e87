// What the kinds and numbers that a host passes mean is stated in specs/, for every form in which the exports take them. There is no
// code here.
#![tactic(auto)]
