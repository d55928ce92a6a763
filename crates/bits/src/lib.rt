// Bits of a slice of bytes, most significant first: numbers of any width read and written.
#![tactic(auto)]

pub mod fields; // fields.rt: numbers read from bits
pub mod pens; // pens.rt: bits written in order
