// What a window must do, its test by sets of pairs of states, and the search for the least: definitions and laws only.
#![tactic(auto)]
