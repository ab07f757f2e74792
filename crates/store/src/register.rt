// What it does to enter a name.
ghost use Rattle.std.specs.Prelude.{◌≡◌, ◌<◌, length, Some, slice_index_or};
ghost use Rattle.std.specs.List.{slice_get};
ghost use Rattle.ordered.specs.Records.{listed};
ghost use Rattle.store.specs.Enterings.{kind_of, no_symbol, objection, first_objection, enter_again, enter_first, enter_at, stands_at, enter};
ghost use Rattle.store.specs.Laws.{EnteringLaws};
ghost use Rattle.store.specs.Mangling.{class_of, text_of, mangled};
ghost use Rattle.store.specs.Memory.{held, room_of, Does};

use crate::cursor::Cursor;
use crate::entry::Entry;
use crate::memory::Memory;
use crate::record::{Mark, SymbolRecord};
use symbols::fault::{Fault, MemoryFault, MemoryReason, Spot};
use symbols::table::SymbolTableType;
use symbols::usage::SymbolUsage;

impl Memory<'_> {
    // The kind of a table; the module's where there is none of this number.
    pub(crate) fn kind(&self, table: usize) -> SymbolTableType
        ensures { result ≡ kind_of (held self.now) table }
    {
        self.tables
            .get(table)
            .map_or(SymbolTableType::Module, |found| found.typ)
    }

    // The record of a symbol that is there.
    fn record_at(&self, i: usize) -> SymbolRecord
        requires { i < length (held self.now).symbols }
        ensures { slice_get (listed self.now.symbols) i ≡ Some result }
    {
        self.symbols.as_slice()[i]
    }

    // Enters a name once more that its table has at place `i`.
    fn enter_again(&mut self, i: usize, entry: &Entry<'_, '_>) -> Result<(), Fault>
        requires { i < length (held self.old).symbols }
        ensures { Does self.old (enter_again (held self.old) entry.now.role entry.now.spot i (objection entry.now.role (slice_index_or (held self.old).symbols i no_symbol))) result self.new }
    {
        let found = self.record_at(i);
        entry.check_again(found.symbol)?;
        let symbol = entry.entered_again(found.symbol);
        self.symbols.set(i, SymbolRecord { symbol, ..found });
        Ok(())
    }

    // Enters a name that is new in its table. Memory is asked for last: for the text, then for the symbol; where there is
    // none for the symbol, the text goes too.
    fn enter_first(&mut self, entry: &Entry<'_, '_>) -> Result<(), Fault>
        ensures { Does self.old (enter_first (room_of self.old) (held self.old) entry.now.table entry.now.role (text_of entry.now.name) entry.now.spot (first_objection entry.now.role (kind_of (held self.old) entry.now.table))) result self.new }
    {
        entry.check_first(self.kind(entry.table))?;
        let counts = self.counts();
        let Ok(text) = self.intern(&entry.name) else {
            return Err(MemoryFault {
                reason: MemoryReason::Texts,
                spot: entry.spot,
            }
            .into());
        };
        let symbol = entry.new_symbol(text);
        let mark = Mark::from(symbol);
        match self.symbols.push(SymbolRecord { symbol, mark }) {
            Ok(_) => Ok(()),
            Err(_) => {
                self.take_back(&counts);
                Err(MemoryFault {
                    reason: MemoryReason::Symbols,
                    spot: entry.spot,
                }
                .into())
            }
        }
    }

    // Enters a name in its table: once more if the table has it, else for the first time.
    #[tactic(auto, unfolding(crate::specs::Enterings::enter))]
    pub(crate) fn enter_name(&mut self, entry: &Entry<'_, '_>) -> Result<(), Fault>
        ensures { Does self.old (enter (room_of self.old) (held self.old) entry.now.table entry.now.role (text_of entry.now.name) entry.now.spot) result self.new }
    {
        match self.find_name(entry.table, &entry.name) {
            Some(i) => self.enter_again(i, entry),
            None => self.enter_first(entry),
        }
    }

    // Enters a name where the cursor stands, as it is mangled by the class name in force there.
    pub fn register_name(
        &mut self,
        cursor: &Cursor<'_>,
        name: &[u8],
        role: SymbolUsage,
        spot: Spot,
    ) -> Result<(), Fault>
        ensures does { Does self.old (enter (room_of self.old) (held self.old) cursor.now.table role (mangled (class_of cursor.now) name.now) spot) result self.new }
        ensures laws { EnteringLaws }
    {
        self.enter_name(&Entry {
            table: cursor.table,
            role,
            name: cursor.mangle(name),
            spot,
        })
    }
}
