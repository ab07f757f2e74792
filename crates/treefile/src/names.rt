// The name index of a tree file.
ghost use Rattle.std.specs.Prelude.{◌≡◌, ◌+◌, ◌^◌, ◌<◌, ◌≤◌, true, length};
ghost use Rattle.treefile.specs.Names.{name_bytes, name_length, name_ok, name_place, names_check};
ghost use Rattle.treefile.specs.Trailer.{trailer_start};

use crate::areas::Areas;
use crate::fault::{TreeFault, TreeReason};
use crate::trailer::{ENTRY, TRAILER};
use crate::words::word_at;

// The most bytes of a name.
const LONGEST: usize = 255;

// Where a name lies.
#[derive(Clone, Copy, Drop)]
struct Entry {
    place: usize,
    length: usize,
    ghost near: { place < 2 ^ 32 },
    ghost short: { length < 2 ^ 32 },
}

impl<'a> Areas<'a> {
    // The entry of a name.
    fn entry(&self, n: usize) -> Entry
        requires { n < self.now.trailer.name_count }
        ensures place { result.place ≡ name_place self.now.file.now self.now.trailer n }
        ensures length { result.length ≡ name_length self.now.file.now self.now.trailer n }
    {
        let at = self.trailer.index + ENTRY * n;
        Entry {
            place: word_at(self.file, at) as usize,
            length: word_at(self.file, at + 4) as usize,
        }
    }

    // Whether a name has 1 to 255 bytes and ends before the trailer.
    fn name_ok(&self, n: usize) -> bool
        requires { n < self.now.trailer.name_count }
        ensures { result ≡ name_ok self.now.file.now self.now.trailer n }
    {
        let Entry { place, length } = self.entry(n);
        length >= 1 && length <= LONGEST && place + length <= self.file.len() - TRAILER
    }

    // The bytes of a name, as a part of the file, or as many of them as the file has: all of them where the name is in order.
    pub(crate) fn name_bytes(&self, n: usize) -> &'a [u8]
        requires { n < self.now.trailer.name_count }
        ensures value { result.now ≡ name_bytes self.now.file.now self.now.trailer n }
        ensures whole { name_ok self.now.file.now self.now.trailer n ≡ true → length result.now ≡ name_length self.now.file.now self.now.trailer n }
        ensures within { name_ok self.now.file.now self.now.trailer n ≡ true → name_place self.now.file.now self.now.trailer n + length result.now ≤ trailer_start self.now.file.now }
    {
        let Entry { place, length } = self.entry(n);
        let rest = &self.file[place.min(self.file.len())..];
        &rest[..length.min(rest.len())]
    }

    // The first name that is not in order.
    pub(crate) fn check_names(&self) -> Result<(), TreeFault>
        ensures { result ≡ names_check self.now.file.now self.now.trailer }
    {
        for n in 0..self.trailer.name_count {
            if !self.name_ok(n) {
                return Err(TreeFault::new(TreeReason::Name, n as u32, 0));
            }
        }
        Ok(())
    }
}
