// What a check sheet means: the machine, what is wanted, and when the instructions are right; there is no code here.
#![tactic(auto)]
