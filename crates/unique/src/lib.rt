// For each public function, that its contract allows one outcome only. No code.
#![tactic(auto)]
