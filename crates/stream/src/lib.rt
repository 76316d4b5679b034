// What encoding to a bit stream and decoding from one come to: definitions and laws only.
#![tactic(auto)]
