// A tree file that passed the check. No file of specs/ that is imported here may name `Tree`.
ghost use Rattle.std.specs.Prelude.{◌≡◌, true, is_ok, Ok};
ghost use Rattle.treefile.specs.Checked.{file_check};
ghost use Rattle.treefile.specs.Trailer.{trailer_of};

use crate::areas::Areas;
use crate::trailer::Trailer;

// A file and where its areas lie, of which it is known that the check passes.
#[derive(Clone, Copy, Drop)]
pub struct Tree<'a> {
    pub areas: Areas<'a>,
    pub ghost checked: { is_ok (file_check areas.file.now) ≡ true },
    pub ghost read: { areas.trailer ≡ trailer_of areas.file.now },
}

impl<'a> Tree<'a> {
    // The tree of a file, from the trailer that its check answered.
    pub fn new(file: &'a [u8], trailer: Trailer) -> Tree<'a>
        requires { file_check file.now ≡ Ok trailer }
        ensures file { result.areas.file.now ≡ file.now }
        ensures trailer { result.areas.trailer ≡ trailer }
    {
        let areas = Areas { file, trailer };
        Tree { areas }
    }

    // How many nodes the tree has.
    pub fn record_count(&self) -> usize
        ensures { result ≡ self.now.areas.trailer.record_count }
    {
        self.areas.trailer.record_count
    }

    // How many names the index has.
    pub fn name_count(&self) -> usize
        ensures { result ≡ self.now.areas.trailer.name_count }
    {
        self.areas.trailer.name_count
    }
}
