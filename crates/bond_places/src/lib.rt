// The order of the places of bonded carriers, and a walk that visits them in that order. Definitions and laws, no code.
#![tactic(auto)]
