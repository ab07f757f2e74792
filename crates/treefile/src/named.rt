// Which kinds may have which names.
ghost use Rattle.std.specs.Prelude.{◌≡◌, ◌<◌, ◌≤◌, ◌&&◌, nat_lt};
ghost use Rattle.treefile.specs.Kinds.{number};
ghost use Rattle.treefile.specs.Names.{name_bytes};
ghost use Rattle.treefile.specs.Records.{dots_ok, form_at, form_ok, kind_at, filler_ok, name_number, naming_ok, record_ok, records_check};

use crate::areas::Areas;
use crate::fault::{TreeFault, TreeReason};
use crate::kind::{Kind, Naming};
use crate::record::Record;

impl Kind {
    // Whether the dots of a name are where this kind may have them.
    fn dots_ok(self, name: &[u8]) -> bool
        ensures { result ≡ dots_ok (number self) name.now }
    {
        match self {
            Kind::ImportFrom => true,
            Kind::Alias => name.first() != Some(&b'.'),
            _ => !name.contains(&b'.'),
        }
    }
}

impl Record<'_, '_> {
    // Whether a name number is in the index, and its name one that the kind may have.
    fn is_named_well(&self, kind: Kind, n: usize) -> bool
        ensures { result ≡ (nat_lt n self.now.of.now.trailer.name_count && dots_ok (number kind) (name_bytes self.now.of.now.file.now self.now.of.now.trailer n)) }
    {
        n < self.of.trailer.name_count && kind.dots_ok(self.of.name_bytes(n))
    }

    // Whether its kind may have its name number.
    fn naming_ok(&self, kind: Kind) -> bool
        ensures { result ≡ naming_ok self.now.of.now.file.now self.now.of.now.trailer (number kind) (name_number self.now.of.now.file.now self.now.of.now.trailer self.now.at) }
    {
        match self.name_number() {
            None => kind.naming() != Naming::Always,
            Some(n) => kind.naming() != Naming::Never && self.is_named_well(kind, n),
        }
    }

    // Whether its form is 0, or 1 in an AnnAssign.
    fn form_ok(&self, kind: Kind) -> bool
        ensures { result ≡ form_ok (number kind) (form_at self.now.of.now.file.now self.now.of.now.trailer self.now.at) }
    {
        match self.form() {
            0 => true,
            1 => kind == Kind::AnnAssign,
            _ => false,
        }
    }

    // Whether it has a known kind, and a form, a name and a row that it may have.
    fn is_ok(&self) -> bool
        ensures { result ≡ record_ok self.now.of.now.file.now self.now.of.now.trailer self.now.at }
    {
        match self.kind() {
            Some(kind) => {
                self.form_ok(kind) && self.has_filler() && self.row() > 0 && self.naming_ok(kind)
            }
            None => false,
        }
    }
}

impl Areas<'_> {
    // The first record that is not so.
    pub(crate) fn check_records(&self) -> Result<(), TreeFault>
        ensures { result ≡ records_check self.now.file.now self.now.trailer }
    {
        for at in 0..self.trailer.record_count {
            let record = Record { of: self, at };
            if !record.is_ok() {
                return Err(record.fault(TreeReason::Record));
            }
        }
        Ok(())
    }
}
