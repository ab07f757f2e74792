// Which nodes have the children that their slots ask for.
ghost use Rattle.std.specs.Prelude.{◌≡◌, ◌≤◌, ◌&&◌, IfSome, is_some, map};
ghost use Rattle.treefile.specs.Fits.{children, elements_fit, end_of, fits, root_fits, second_absent, slot_fits, takes, within};
ghost use Rattle.treefile.specs.Kinds.{number};
ghost use Rattle.treefile.specs.Records.{kind_at};
ghost use Rattle.treefile.specs.Slots.{columns, element, letter, single};

use crate::areas::Areas;
use crate::kind::Kind;
use crate::record::Record;
use crate::slot::Slot;
use crate::subtree::Subtree;

impl Record<'_, '_> {
    // The slots of its node: none where its kind is none.
    fn slots(&self) -> &'static [Slot]
        ensures { map letter result.now ≡ columns (kind_at self.now.of.now.file.now self.now.of.now.trailer self.now.at) }
    {
        match self.kind() {
            Some(kind) => kind.slots(),
            None => &[],
        }
    }

    // Whether its kind is one that may be an element of a List in a slot.
    fn is_element_of(&self, slot: Slot) -> bool
        ensures { result ≡ element (letter slot) (kind_at self.now.of.now.file.now self.now.of.now.trailer self.now.at) }
    {
        self.kind().is_some_and(|kind| slot.has_element(kind))
    }

    // Whether its kind is one that may stand in a slot that asks for no List.
    fn is_single_of(&self, slot: Slot) -> bool
        ensures { result ≡ single (letter slot) (kind_at self.now.of.now.file.now self.now.of.now.trailer self.now.at) }
    {
        self.kind().is_some_and(|kind| slot.has_single(kind))
    }

    // Whether its node lies within a List that ends at an end, and is an element that the slot asks for.
    fn fits_list(&self, slot: Slot, end: usize) -> bool
        requires { end ≤ self.now.of.now.trailer.record_count }
        ensures { result ≡ (within self.now.of.now.file.now self.now.of.now.trailer end self.now.at && element (letter slot) (kind_at self.now.of.now.file.now self.now.of.now.trailer self.now.at)) }
    {
        self.subtree(end).is_some() && self.is_element_of(slot)
    }

    // Whether its node fits a slot of a node that ends at an end.
    fn fits_slot(&self, slot: Slot, end: usize) -> bool
        requires { end ≤ self.now.of.now.trailer.record_count }
        ensures { result ≡ slot_fits self.now.of.now.file.now self.now.of.now.trailer (letter slot) end self.now.at }
    {
        self.subtree(end).is_some_and(|tree| tree.is_taken_by(slot))
    }
}

impl<'t, 'a> Subtree<'t, 'a> {
    // Whether the elements of a List lie within it and are of the slot's sort.
    fn elements_fit(&self, slot: Slot) -> bool
        ensures { result ≡ elements_fit self.now.root.of.now.file.now self.now.root.of.now.trailer (letter slot) (end_of self.now.root.of.now.file.now self.now.root.of.now.trailer self.now.root.at) (children self.now.root.of.now.file.now self.now.root.of.now.trailer self.now.root.at) }
    {
        let end = self.end();
        for child in self.children() {
            if !child.fits_list(slot, end) {
                return false;
            }
        }
        true
    }

    // Whether the second child of its root is Absent.
    fn second_is_absent(&self) -> bool
        ensures { result ≡ second_absent self.now.root.of.now.file.now self.now.root.of.now.trailer self.now.root.at }
    {
        let mut children = self.children();
        let (Some(first), Some(second)) = (children.next(), children.next()) else {
            return false;
        };
        first.subtree(self.end()).is_some() && second.is(Kind::Absent)
    }

    // Whether its root may stand in a slot, as far as the slot speaks.
    fn is_taken_by(&self, slot: Slot) -> bool
        ensures { result ≡ takes self.now.root.of.now.file.now self.now.root.of.now.trailer (letter slot) self.now.root.at }
    {
        let root = &self.root;
        if slot.asks_list() {
            root.is(Kind::List)
                && (slot != Slot::Generators || root.size() > 1)
                && self.elements_fit(slot)
        } else if slot == Slot::MaybeBareArg {
            root.is(Kind::Absent) || (root.is(Kind::Arg) && self.second_is_absent())
        } else {
            root.is_single_of(slot)
        }
    }

    // Whether the children of its root fit the slots.
    pub(crate) fn fits(&self) -> bool
        ensures { result ≡ fits self.now.root.of.now.file.now self.now.root.of.now.trailer self.now.root.at }
    {
        if self.root.is(Kind::List) {
            return true;
        }
        let end = self.end();
        let mut slots = self.root.slots();
        for child in self.children() {
            let Some((slot, rest)) = slots.split_first() else {
                return false;
            };
            if !child.fits_slot(*slot, end) {
                return false;
            }
            slots = rest;
        }
        slots.is_empty()
    }
}

impl<'a> Areas<'a> {
    // The tree, if the root spans all records, and is a List of statements or an expression.
    pub(crate) fn root(&self) -> Option<Subtree<'_, 'a>>
        ensures fits { is_some result ≡ root_fits self.now.file.now self.now.trailer }
        ensures of { IfSome result (λ tree. tree.root.of.now ≡ self.now) }
        ensures at { IfSome result (λ tree. tree.root.at ≡ 0) }
    {
        let root = Record { of: self, at: 0 };
        let tree = root.subtree(self.trailer.record_count)?;
        let slot = if root.is(Kind::List) {
            Slot::Statements
        } else {
            Slot::Expression
        };
        if tree.end() == self.trailer.record_count && tree.is_taken_by(slot) {
            Some(tree)
        } else {
            None
        }
    }
}
