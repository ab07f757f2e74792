// The records of a tree file, each in itself.
ghost use Rattle.std.specs.Prelude.{◌≡◌, ℕ, ◌+◌, ◌^◌, ◌<◌, ◌≤◌, ◌&&◌, ◌==◌, Some, None, cond, MatchOption, false, length, nat_lt};
ghost use Rattle.treefile.specs.Faults.{fault_of};
ghost use Rattle.treefile.specs.Kinds.{known, number};
ghost use Rattle.treefile.specs.Records.{filler_ok, form_at, kind_at, name_number, record_place, row_at, size_at};

use crate::areas::Areas;
use crate::fault::{TreeFault, TreeReason};
use crate::kind::Kind;
use crate::trailer::RECORD;
use crate::words::word_at;

// The name number that stands for none.
const NONE: u32 = 0xffff_ffff;

// A record of a file, by its number.
#[derive(Clone, Copy, Drop)]
pub(crate) struct Record<'t, 'a> {
    pub(crate) of: &'t Areas<'a>,
    pub(crate) at: usize,
    ghost there: { at < of.now.trailer.record_count },
}

impl Areas<'_> {
    // Where a record begins.
    fn record_place(&self, i: usize) -> usize
        requires { i < self.now.trailer.record_count }
        ensures value { result ≡ record_place self.now.trailer i }
        ensures within { result + 36 ≤ length self.now.file.now }
    {
        self.trailer.records + RECORD * i
    }
}

impl<'t, 'a> Record<'t, 'a> {
    // Where it begins.
    fn place(&self) -> usize
        ensures value { result ≡ record_place self.now.of.now.trailer self.now.at }
        ensures within { result + 36 ≤ length self.now.of.now.file.now }
    {
        self.of.record_place(self.at)
    }

    // Its kind; none where its number is no kind's.
    #[inline(always)]
    pub(crate) fn kind(&self) -> Option<Kind>
        ensures { MatchOption result (known (kind_at self.now.of.now.file.now self.now.of.now.trailer self.now.at) ≡ false) (λ kind. number kind ≡ kind_at self.now.of.now.file.now self.now.of.now.trailer self.now.at) }
    {
        Kind::try_from(self.of.file[self.place()]).ok()
    }

    // Whether it is of this kind.
    pub(crate) fn is(&self, kind: Kind) -> bool
        ensures { result ≡ (kind_at self.now.of.now.file.now self.now.of.now.trailer self.now.at == number kind) }
    {
        self.of.file[self.place()] == kind as u8
    }

    pub(crate) fn form(&self) -> u8
        ensures { result ≡ form_at self.now.of.now.file.now self.now.of.now.trailer self.now.at }
    {
        self.of.file[self.place() + 1]
    }

    // Whether the two bytes after its form are zero.
    pub(crate) fn has_filler(&self) -> bool
        ensures { result ≡ filler_ok self.now.of.now.file.now self.now.of.now.trailer self.now.at }
    {
        let place = self.place();
        self.of.file[place + 2] == 0 && self.of.file[place + 3] == 0
    }

    pub(crate) fn size(&self) -> usize
        ensures value { result ≡ size_at self.now.of.now.file.now self.now.of.now.trailer self.now.at }
        ensures fits { result < 2 ^ 32 }
    {
        word_at(self.of.file, self.place() + 4) as usize
    }

    // The number of its name, if it has one.
    pub(crate) fn name_number(&self) -> Option<usize>
        ensures { result ≡ (let n = name_number self.now.of.now.file.now self.now.of.now.trailer self.now.at in cond (n == 0xffff_ffff) None (Some n)) }
    {
        match word_at(self.of.file, self.place() + 8) {
            NONE => None,
            number => Some(number as usize),
        }
    }

    pub(crate) fn row(&self) -> u32
        ensures { result ≡ row_at self.now.of.now.file.now self.now.of.now.trailer self.now.at }
    {
        word_at(self.of.file, self.place() + 12)
    }

    // A fault of its node.
    pub(crate) fn fault(&self, reason: TreeReason) -> TreeFault
        ensures { result ≡ fault_of reason self.now.at (row_at self.now.of.now.file.now self.now.of.now.trailer self.now.at) }
    {
        TreeFault::new(reason, self.at as u32, self.row())
    }
}
