// Theorems about bundles: what they are made of, that each clause is answered alone, and when each refusal is given. There is
// no code here.
#![tactic(auto)]
