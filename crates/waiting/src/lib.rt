// No code: what the answer of an exploration says of enforcers and of lists of calls.
#![tactic(auto)]
