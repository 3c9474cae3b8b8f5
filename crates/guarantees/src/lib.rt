// No code: every final theorem, stated in one place (specs) in the order of the mission, with its proof by citation (proofs/Shown).
#![tactic(auto)]
