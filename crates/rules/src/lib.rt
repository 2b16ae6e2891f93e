// Rules that are easily missed, as facts about the definitions; there is no code here.
#![tactic(auto)]
