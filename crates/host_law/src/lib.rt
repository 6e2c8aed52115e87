// What the numbers of the exported calls' answers tell a host is stated in specs/, for every form of an answer. There is no code here.
#![tactic(auto)]
