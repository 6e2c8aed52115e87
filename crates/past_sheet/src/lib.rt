// That the calls on sheets read nothing past a sheet's length is stated in specs/. There is no code here.
#![tactic(auto)]
