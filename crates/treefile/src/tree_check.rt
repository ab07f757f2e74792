// The check of the tree: each node's children fit its slots, and none stands too deep.
ghost use Rattle.std.specs.Prelude.{◌≡◌, ◌<◌, Err};
ghost use Rattle.treefile.specs.Fits.{Tiled, node_check, tree_check};
ghost use Rattle.treefile.specs.Records.{kind_at};

use crate::areas::Areas;
use crate::fault::{TreeFault, TreeReason};
use crate::record::Record;
use crate::subtree::Subtree;

// The most levels of a tree, its root's among them.
const LEVELS: u32 = 200;

impl Subtree<'_, '_> {
    // The fault of its root, which stands too deep: its slots are tested first.
    fn deep_fault(&self) -> TreeFault
        ensures { Err result ≡ node_check self.now.root.of.now.file.now self.now.root.of.now.trailer 0 self.now.root.at }
    {
        if !self.fits() {
            return self.root.fault(TreeReason::Slots);
        }
        self.root.fault(TreeReason::Depth)
    }

    // The first fault in it, with so many levels left for its root and what is below it.
    fn check(&self, levels: u32) -> Result<(), TreeFault>
        requires tiled { kind_at self.now.root.of.now.file.now self.now.root.of.now.trailer self.now.root.at ≡ 1 → Tiled self.now.root.of.now.file.now self.now.root.of.now.trailer self.now.root.at }
        requires some { 0 < levels }
        ensures { result ≡ node_check self.now.root.of.now.file.now self.now.root.of.now.trailer levels self.now.root.at }
    {
        if !self.fits() {
            return Err(self.root.fault(TreeReason::Slots));
        }
        for root in self.children() {
            let child = Subtree { root };
            if levels == 1 {
                return Err(child.deep_fault());
            }
            child.check(levels - 1)?;
        }
        Ok(())
    }
}

impl Areas<'_> {
    // The first fault of the tree.
    pub(crate) fn check_tree(&self) -> Result<(), TreeFault>
        ensures { result ≡ tree_check self.now.file.now self.now.trailer }
    {
        match self.root() {
            Some(root) => root.check(LEVELS),
            None => {
                let root = Record { of: self, at: 0 };
                Err(root.fault(TreeReason::Slots))
            }
        }
    }
}
