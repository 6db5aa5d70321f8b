// Theory alone: histories of calls, and what holds after each.
#![tactic(auto)]
