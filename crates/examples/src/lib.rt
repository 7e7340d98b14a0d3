// The small examples of the scope document, as one table in specs/ and one proof. No code.
#![tactic(auto)]
