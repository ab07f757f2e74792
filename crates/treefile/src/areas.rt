// The areas of a tree file. No file of specs/ that is imported here may name `Areas`.
ghost use Rattle.std.specs.Prelude.{◌≡◌, ◌+◌, ◌*◌, ◌<◌, ◌≤◌, length};

use crate::trailer::Trailer;

// A file whose frame and counts are sound: its areas lie before its trailer, and none is too large.
#[derive(Clone, Copy, Drop)]
pub struct Areas<'a> {
    pub file: &'a [u8],
    pub trailer: Trailer,
    pub ghost records: { trailer.records + 16 * trailer.record_count + 20 ≤ length file.now },
    pub ghost index: { trailer.index + 8 * trailer.name_count + 20 ≤ length file.now },
    pub ghost some: { 0 < trailer.record_count },
    pub ghost few: { trailer.record_count < 65536 },
    pub ghost few_names: { trailer.name_count < 65536 },
}
