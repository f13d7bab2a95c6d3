// Bytes: little-endian numbers, frames, and writing into a lent buffer. This is the encoding that values, shelves and archives share.
#![tactic(auto)]

pub mod cursor;
