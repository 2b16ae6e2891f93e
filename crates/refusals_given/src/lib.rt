// Which refusals an event sheet and a call are given, and when; there is no code here.
#![tactic(auto)]
