// What the scan reads of a checked tree.
ghost use Rattle.std.specs.Prelude.{◌≡◌, ◌<◌};
ghost use Rattle.treefile.specs.Shown.{shown, node_at};
ghost use Rattle.scan.specs.Scanned.{class_in};

use treefile::node::{Case, Node};
use treefile::tree::Tree;

// The node at a place.
pub(crate) fn read<'a>(tree: &Tree<'a>, at: usize) -> Node<'a>
    requires { at < tree.now.areas.trailer.record_count }
    ensures { shown result ≡ node_at tree.now.areas.file.now tree.now.areas.trailer at }
{
    let Some(node) = tree.node(at) else {
        unreachable()
    };
    node
}

// The name of the class whose node is given; nothing outside of classes.
pub(crate) fn class_name<'a>(tree: &Tree<'a>, class: Option<usize>) -> &'a [u8]
    ensures { result.now ≡ class_in tree.now.areas.file.now tree.now.areas.trailer class }
{
    let Some(at) = class else {
        return b"";
    };
    let Some(node) = tree.node(at) else {
        return b"";
    };
    match node.case {
        Case::ClassDef { name, .. } => name,
        _ => b"",
    }
}
