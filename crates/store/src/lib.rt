// The store under the scan: what is kept of the names of a script, in lent memory, and what it does to enter a name.
//
// A caller lends four areas: records of tables, of symbols and of texts, and the bytes of the texts. `Memory` is the four
// with their counts, and means what they hold. A name is entered where a cursor stands, in a role, as an `entry`: `register` finds the
// symbol or adds one, or says why not, and `outward` has the names that enter more than one. A private name is entered
// under the name of its class (`mangle`), and each text is held once (`intern`). `cursor` opens tables, and has the guard
// that puts the open table and the class name in force back. No call asks anything of its caller, and a name that is refused
// changes nothing.
#![tactic(auto)]

pub mod cursor;
mod entry;
pub mod intern;
pub mod mangle;
pub mod memory;
mod objection;
pub mod outward;
pub mod record;
pub mod register;
pub mod text;
