// Sheets with known ends that are proved, those of docs/RULES.md and more check sheets, in one table; there is no code here.
#![tactic(auto)]
