// Theory alone: a table's records as the tree sees them, and the refusal numbers.
#![tactic(auto)]
