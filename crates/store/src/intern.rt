// Texts are held once: the search for one, and its interning.
ghost use Rattle.std.specs.Prelude.{◌≡◌};
ghost use Rattle.store.specs.Enterings.{symbol_of, stands_at};
ghost use Rattle.store.specs.Mangling.{text_of};
ghost use Rattle.store.specs.Memory.{held, room_of, Keeps, Numbers};
ghost use Rattle.store.specs.Texts.{number_of, added, interned, with_first};

use crate::mangle::Mangled;
use crate::memory::{Counts, Memory};
use crate::record::SymbolKey;
use crate::text::Text;
use ordered::NoRoom;

impl Memory<'_> {
    // The number of a name's text, if it is held.
    pub(crate) fn find_text(&self, name: &Mangled<'_, '_>) -> Option<usize>
        ensures { result ≡ number_of (held self.now) (text_of name.now) }
    {
        let i = self.texts.find(self.bytes.as_slice(), name)?;
        Some(i)
    }

    // The place of the symbol of a text in a table, if there is one.
    pub(crate) fn find_symbol(&self, table: usize, text: usize) -> Option<usize>
        ensures { result ≡ symbol_of (held self.now) table text }
    {
        self.symbols.find(b"", &SymbolKey { table, text })
    }

    // The place of the symbol of a name in a table, if there is one.
    pub fn find_name(&self, table: usize, name: &Mangled<'_, '_>) -> Option<usize>
        ensures { result ≡ stands_at (held self.now) table (text_of name.now) }
    {
        let text = self.find_text(name)?;
        self.find_symbol(table, text)
    }

    // Adds a text, and answers its number; or nothing, where its record or its bytes do not fit.
    fn add_text(&mut self, name: &Mangled<'_, '_>) -> Result<usize, NoRoom>
        ensures numbers { Numbers (held self.old) (added (room_of self.old) (held self.old) (text_of name.now)) result (held self.new) }
        ensures keeps { Keeps self.old self.new }
    {
        let start = self.bytes.count();
        name.append_to(&mut self.bytes)?;
        let len = self.bytes.count() - start;
        match self.texts.push(Text { start, len }) {
            Ok(number) => Ok(number),
            Err(_) => {
                self.bytes.truncate(start);
                Err(NoRoom)
            }
        }
    }

    // The number of a name's text, which is added where it is not held; or nothing, where it does not fit.
    //
    // Always inlined, so that where the text has just been sought the compiler need not seek it again.
    #[inline(always)]
    pub(crate) fn intern(&mut self, name: &Mangled<'_, '_>) -> Result<usize, NoRoom>
        ensures numbers { Numbers (held self.old) (interned (room_of self.old) (held self.old) (text_of name.now)) result (held self.new) }
        ensures keeps { Keeps self.old self.new }
    {
        match self.find_text(name) {
            Some(number) => Ok(number),
            None => self.add_text(name),
        }
    }

    // Takes back the texts that came after these counts.
    pub(crate) fn take_back(&mut self, counts: &Counts)
        ensures held { held self.new ≡ with_first (held self.old) counts.now.texts counts.now.bytes }
        ensures keeps { Keeps self.old self.new }
    {
        self.texts.truncate(counts.texts);
        self.bytes.truncate(counts.bytes);
    }
}
