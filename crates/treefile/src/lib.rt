// A syntax-tree file: its check, and its nodes once it is checked.
//
// A file holds name bytes, an index of names, records of 16 bytes in preorder, and at its end a trailer that
// says where they lie. `check` takes any bytes and answers a `Tree` or the first fault: the frame, the counts,
// the names, each record in itself, and then the tree, node by node. A `Tree` is a file that passed; its nodes
// are shown with names that borrow the file and with the places of their children, and reading one does not
// check the file again.
#![tactic(auto)]

pub mod areas;
mod case;
pub mod check;
pub mod fault;
mod fits;
mod kind;
mod named;
mod names;
pub mod node;
mod read;
mod record;
mod slot;
pub mod stand;
mod subtree;
pub mod trailer;
pub mod tree;
mod tree_check;
mod walk;
mod words;
