// The tree's mathematics: definitions and theorems alone (specs/), and no code.
#![tactic(auto)]
