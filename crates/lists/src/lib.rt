// No code: lists of calls over any state (specs/Calls), and laws of plain lists, which know no automaton.
#![tactic(auto)]
