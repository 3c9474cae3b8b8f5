// No code: the starred examples of document 01 as one table, and the theorem that every row of it holds.
#![tactic(auto)]
