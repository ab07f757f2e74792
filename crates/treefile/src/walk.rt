// A walk over a checked tree.
ghost use Rattle.std.specs.Prelude.{◌≡◌, ◌-◌, ◌≤◌, ◌++◌, IfOk, OnOk};
ghost use Rattle.treefile.specs.Passing.{Passes};
ghost use Rattle.treefile.specs.Preorder.{AllInOrder, preorder};

use crate::record::Record;
use crate::stand::Stand;
use crate::subtree::Subtree;
use crate::tree::Tree;
use std::alloc::{AllocError, Global};

impl Subtree<'_, '_> {
    // Appends its nodes in preorder, the root at a depth.
    fn push_nodes(&self, out: &mut Vec<Stand>, depth: usize) -> Result<(), AllocError>
        requires depth { depth ≤ 200 }
        requires passes { Passes self.now.root.of.now.file.now self.now.root.of.now.trailer (201 - depth) self.now.root.at }
        ensures { OnOk result (out.new.items ≡ out.old.items ++ preorder self.now.root.of.now.file.now self.now.root.of.now.trailer (201 - depth) depth self.now.root.at) }
    {
        out.push(Stand {
            node: self.root.at,
            depth,
        })?;
        for root in self.children() {
            let child = Subtree { root };
            child.push_nodes(out, depth + 1)?;
        }
        Ok(())
    }
}

impl Tree<'_> {
    // All nodes in preorder, each with its depth.
    pub fn nodes(&self, heap: Global) -> Result<Vec<Stand>, AllocError>
        ensures nodes { IfOk result (λ v. v.items ≡ preorder self.now.areas.file.now self.now.areas.trailer 200 1 0) }
        ensures order { AllInOrder self.now.areas.file.now self.now.areas.trailer }
    {
        let mut out = Vec::new(heap);
        let root = Record {
            of: &self.areas,
            at: 0,
        };
        let tree = Subtree { root };
        tree.push_nodes(&mut out, 1)?;
        Ok(out)
    }
}
