// Theory alone: what a well-formed table is, in the paper's words and in the counting form that the code takes.
#![tactic(auto)]
