// The lines of the program that lists a tree, without the line feed.
ghost use Rattle.std.specs.Prelude.{◌≡◌, Some};
ghost use Rattle.std.specs.Option.{option_map};
ghost use Rattle.listing.specs.Lines.{node_line, fault_line};

use crate::escaped::Name;
use std::fmt;
use treefile::fault::{Reason, Refusal};

// A node: its number, its depth, its kind's word, its name and its row.
#[derive(Clone, Copy)]
pub struct NodeLine<'a> {
    pub number: usize,
    pub depth: usize,
    pub word: &'a str,
    pub name: Option<&'a [u8]>,
    pub row: u32,
}

impl fmt::Display for NodeLine<'_> {
    ghost output = { λ x. Some (node_line x.number x.depth x.word.now (option_map (λ x. x.now) x.name) x.row) };

    fn fmt<W: fmt::Write>(&self, f: &mut fmt::Formatter<W>) -> fmt::Result {
        let NodeLine {
            number,
            depth,
            word,
            name,
            row,
        } = *self;
        let name = Name(name);
        write!(f, "{number} {depth} {word} {name} {row}")
    }
}

// A fault: the number of the rule that is broken, and the node and the row where.
#[derive(Clone, Copy)]
pub struct FaultLine {
    pub number: u8,
    pub node: u32,
    pub row: u32,
}

impl<R: Reason + Copy> From<Refusal<R>> for FaultLine {
    ghost from_gives = { λ fault line. line ≡ record { number = R.number_of fault.reason; node = fault.spot.node; row = fault.spot.row } };

    fn from(fault: Refusal<R>) -> FaultLine {
        FaultLine {
            number: fault.number(),
            node: fault.spot.node,
            row: fault.spot.row,
        }
    }
}

impl fmt::Display for FaultLine {
    ghost output = { λ x. Some (fault_line x.number x.node x.row) };

    fn fmt<W: fmt::Write>(&self, f: &mut fmt::Formatter<W>) -> fmt::Result {
        let FaultLine { number, node, row } = *self;
        write!(f, "R {number} {node} {row}")
    }
}
