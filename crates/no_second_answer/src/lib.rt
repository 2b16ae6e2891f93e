// No second answer meets the contract of a public function of the event side: a theorem for each form of contract; there is no
// code here.
#![tactic(auto)]
