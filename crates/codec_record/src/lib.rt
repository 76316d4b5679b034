// Encoding and decoding under the record in some bytes: it is read with every check, or without 9 and 10 if it was
// accepted before, and then its table encodes or decodes.
#![tactic(auto)]

pub mod decoding;
pub mod encoding;
