// What the programs over stored cases share: the parts of a record, read from a reader, and digests.
#![tactic(auto)]

pub mod digest; // digest.rt: 64-bit FNV-1a digests of bytes and of numbers
pub mod entry; // entry.rt: the entries of a record's buffers
pub mod input; // input.rt: the parts of a record
