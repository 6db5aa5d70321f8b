// Theory alone: what is said of the first n places of a row, and how a loop comes to know it.
#![tactic(auto)]
