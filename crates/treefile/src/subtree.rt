// The subtree of a node, and its children one after the other.
ghost use Rattle.std.specs.Prelude.{◌≡◌, ◌+◌, ◌<◌, ◌≤◌, IfSome, is_some};
ghost use Rattle.std.specs.Iterator.{YieldsFirstBy, item_count};
ghost use Rattle.treefile.specs.Fits.{child_places, end_of, kids, place, places, within};
ghost use Rattle.treefile.specs.Records.{size_at};

use crate::areas::Areas;
use crate::record::Record;

// A node whose subtree lies among the records.
#[derive(Clone, Copy, Drop)]
pub(crate) struct Subtree<'t, 'a> {
    pub(crate) root: Record<'t, 'a>,
    ghost some: { 1 ≤ size_at root.of.now.file.now root.of.now.trailer root.at },
    ghost within: { end_of root.of.now.file.now root.of.now.trailer root.at ≤ root.of.now.trailer.record_count },
}

// The nodes that stand one after the other from `next` up to `end`, at most `left` of them.
#[derive(Clone, Copy, Drop)]
pub(crate) struct Children<'t, 'a> {
    of: &'t Areas<'a>,
    left: usize,
    next: usize,
    end: usize,
    ghost within: { end ≤ of.now.trailer.record_count },
}

impl<'t, 'a> Record<'t, 'a> {
    // The subtree of its node, if the node has a size, and ends at or before an end.
    pub(crate) fn subtree(&self, end: usize) -> Option<Subtree<'t, 'a>>
        requires { end ≤ self.now.of.now.trailer.record_count }
        ensures within { is_some result ≡ within self.now.of.now.file.now self.now.of.now.trailer end self.now.at }
        ensures root { IfSome result (λ tree. tree.root ≡ self.now) }
    {
        let size = self.size();
        if size >= 1 && self.at + size <= end {
            Some(Subtree { root: *self })
        } else {
            None
        }
    }
}

impl<'t, 'a> Subtree<'t, 'a> {
    // Where it ends.
    pub(crate) fn end(&self) -> usize
        ensures { result ≡ end_of self.now.root.of.now.file.now self.now.root.of.now.trailer self.now.root.at }
    {
        self.root.at + self.root.size()
    }

    // The children of its root.
    pub(crate) fn children(&self) -> Children<'t, 'a>
        ensures { places result.of.now.file.now result.of.now.trailer result.left result.next result.end ≡ child_places self.now.root.of.now.file.now self.now.root.of.now.trailer self.now.root.at }
    {
        Children {
            of: self.root.of,
            left: self.root.size(),
            next: self.root.at + 1,
            end: self.end(),
        }
    }
}

impl<'t, 'a> Iterator for Children<'t, 'a> {
    type Item = Record<'t, 'a>;

    ghost next_gives = { YieldsFirstBy (λ r. place r.of.now.file.now r.of.now.trailer r.at) (λ c. places c.of.now.file.now c.of.now.trailer c.left c.next c.end) };

    ghost remaining = { item_count (λ c. kids c.of.now.file.now c.of.now.trailer c.left c.next c.end) };

    fn next(&mut self) -> Option<Record<'t, 'a>> {
        if self.left == 0 || self.next >= self.end {
            return None;
        }
        let record = Record {
            of: self.of,
            at: self.next,
        };
        self.left -= 1;
        self.next += record.size();
        Some(record)
    }
}
