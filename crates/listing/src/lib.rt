// Theory alone: the paper's listing as a history, and the edges P1 to P13.
#![tactic(auto)]
