// The trailer of a tree file.
ghost use Rattle.std.specs.Prelude.{◌≡◌, IfOk};
ghost use Rattle.std.specs.Result.{result_map_both};
ghost use Rattle.treefile.specs.Trailer.{trailer_check};

use crate::areas::Areas;
use crate::fault::{TreeFault, TreeReason};
use crate::words::word_at;

// The bytes of a trailer.
pub(crate) const TRAILER: usize = 20;

// The bytes of a record.
pub(crate) const RECORD: usize = 16;

// The bytes of an entry of the name index.
pub(crate) const ENTRY: usize = 8;

// The most records, and the most names, that a file may have.
const MOST: usize = 65535;

// Where the areas of a file lie, and how many records and names they hold.
#[derive(Clone, Copy, Drop, PartialEq, Eq, Debug)]
pub struct Trailer {
    pub records: usize,
    pub record_count: usize,
    pub index: usize,
    pub name_count: usize,
}

// The areas of a file whose frame and counts are sound.
pub(crate) fn check_trailer(file: &[u8]) -> Result<Areas<'_>, TreeFault>
    ensures value { result_map_both (λ areas. areas.trailer) (λ e. e) result ≡ trailer_check file.now }
    ensures file { IfOk result (λ areas. areas.file.now ≡ file.now) }
{
    if file.len() < TRAILER {
        return Err(TreeFault::new(TreeReason::Frame, 0, 0));
    }
    let start = file.len() - TRAILER;
    let trailer = Trailer {
        records: word_at(file, start) as usize,
        record_count: word_at(file, start + 4) as usize,
        index: word_at(file, start + 8) as usize,
        name_count: word_at(file, start + 12) as usize,
    };
    let length = word_at(file, start + 16) as usize;
    if length != file.len()
        || trailer.records + RECORD * trailer.record_count > start
        || trailer.index + ENTRY * trailer.name_count > start
    {
        return Err(TreeFault::new(TreeReason::Frame, 0, 0));
    }
    if trailer.record_count == 0 || trailer.record_count > MOST || trailer.name_count > MOST {
        return Err(TreeFault::new(TreeReason::Counts, 0, 0));
    }
    Ok(Areas { file, trailer })
}
