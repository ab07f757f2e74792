// The words of symbol tables: kinds of tables, scopes, masks, roles, symbols, and why an entering is refused.
//
// Names and values are those of the Rust. `usage` has the ten roles in which a name is entered and what each sets, `flags`
// the masks, `table` and `symbol` what is kept of a table and of a name in it, `fault` the reasons of a refusal. What is
// done with them stands in the crates above.
#![tactic(auto)]

pub mod fault;
pub mod flags;
pub mod scope;
pub mod symbol;
pub mod table;
pub mod usage;
