// A valid state stays valid; there is no code here.
#![tactic(auto)]
