// The text of a listing.
ghost use Rattle.std.specs.Prelude.{◌≡◌, ◌<◌, ◌++◌, IfOk, IfSome, OnOk, All, string_bytes};
ghost use Rattle.treelist.specs.Listing.{ended, line_of, listing_of, record_line, record_lines};

use listing::lines::{FaultLine, NodeLine};
use std::alloc::{AllocError, Global};
use std::fmt::Display;
use treefile::check::check;
use treefile::fault::{Spot, TreeFault, TreeReason};
use treefile::stand::Stand;
use treefile::tree::Tree;

// The most bytes of a file.
pub const LIMIT: usize = 4_194_304;

// Appends a line.
fn push_line<T: Display>(out: &mut String, line: &T) -> Result<(), AllocError>
    ensures { IfSome (T.output line.now) (λ bs. OnOk result (string_bytes out.new ≡ string_bytes out.old ++ ended bs)) }
{
    writeln!(out, "{line}")
}

// The line of a record.
#[tactic(auto, using(crate::proofs::Lines::same_line))]
fn record_line<'a>(tree: &Tree<'a>, at: Stand) -> NodeLine<'a>
    requires { at.node < tree.now.areas.trailer.record_count }
    ensures { line_of result ≡ record_line tree.now.areas.file.now tree.now.areas.trailer at }
{
    let Some(node) = tree.node(at.node) else {
        unreachable()
    };
    NodeLine {
        number: at.node,
        depth: at.depth,
        word: node.case.word(),
        name: node.case.name(),
        row: node.row,
    }
}

// Appends the lines of records.
fn push_records(out: &mut String, tree: &Tree<'_>, nodes: &[Stand]) -> Result<(), AllocError>
    requires { All (λ s. s.node < tree.now.areas.trailer.record_count) nodes.now }
    ensures { OnOk result (string_bytes out.new ≡ string_bytes out.old ++ record_lines tree.now.areas.file.now tree.now.areas.trailer nodes.now) }
{
    for at in nodes {
        push_line(out, &record_line(tree, *at))?;
    }
    Ok(())
}

// The whole text that is written for an input.
#[tactic(auto, using(crate::proofs::Lines::in_order_below))]
pub fn listing_of(heap: Global, file: &[u8]) -> anyhow::Result<String>
    ensures { IfOk result (λ s. string_bytes s ≡ listing_of file.now) }
{
    let mut out = String::new(heap);
    if file.len() > LIMIT {
        let fault = TreeFault {
            reason: TreeReason::Frame,
            spot: Spot { node: 0, row: 0 },
        };
        push_line(&mut out, &FaultLine::from(fault))?;
        return Ok(out);
    }
    match check(file) {
        Ok(tree) => {
            let nodes = tree.nodes(heap)?;
            push_records(&mut out, &tree, nodes.as_slice())?;
        }
        Err(fault) => push_line(&mut out, &FaultLine::from(fault))?,
    }
    Ok(out)
}
