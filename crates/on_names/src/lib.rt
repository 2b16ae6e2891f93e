// The run of a check sheet on names says what holds for every choice of entry contents and step numbers; there is no code here.
#![tactic(auto)]
