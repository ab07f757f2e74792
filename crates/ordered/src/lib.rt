// One table for any record that tells its key, over places that a caller lends.
//
// A table means its list of records, in the order in which they came, and the contracts speak of that list. A
// record is sought by its key: a probe asks for one, and matches exactly the records that have it. A new record type
// gives an impl of `Keyed` for each type of probe, and has all else from here. No call asks anything of its caller: where
// a record or a place is missing, the call says so and leaves the table as it was.
//
// `keyed` has what a record shows, `table` the struct, `methods` what can be done with it.
#![tactic(auto)]

pub mod keyed;
pub mod methods;
pub mod table;
#[cfg(test)]
mod tests;

pub use keyed::Keyed;
pub use table::{NoRoom, Ordered};
