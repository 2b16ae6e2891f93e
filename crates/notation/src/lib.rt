// Words that the definitions of every crate share; there is no code here.
#![tactic(auto)]
