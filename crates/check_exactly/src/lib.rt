// Theorems about check sheets: when each refusal is given, when a sheet is accepted, and that no second answer fits. There is
// no code here.
#![tactic(auto)]
