// A bonded stream, from the composers of its carriers through their receivers: a theorem about what the calls answer and leave. No code.
#![tactic(auto)]
