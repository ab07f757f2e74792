// Where the scan stands: the table that is open, and the class name in force.
ghost use Rattle.std.specs.Prelude.{◌≡◌, length, is_ok, if◌then◌else◌, Some};
ghost use Rattle.store.specs.Mangling.{class_of, mangled, text_of};
ghost use Rattle.store.specs.Memory.{held, room_of, Gives, Does};
ghost use Rattle.store.specs.Tables.{nests_in, open_table};

use crate::mangle::{Mangled, mangle_name};
use crate::memory::Memory;
use symbols::fault::{Fault, MemoryFault, MemoryReason, Spot};
use symbols::table::{SymbolTable, SymbolTableType};

// Where the scan stands: the open table, and the name of the class in force, if there is one. A function in a class has the
// name of that class in force too.
#[derive(Clone, Copy, Drop)]
pub struct Cursor<'c> {
    pub table: usize,
    pub class: Option<&'c [u8]>,
}

// A guard on the cursor: at its end, on every way out, the table and the class name that it was made with are put back.
pub struct Within<'g, 'c> {
    pub cursor: &'g mut Cursor<'c>,
    pub table: usize,
    pub class: Option<&'c [u8]>,
}

impl<'g, 'c> Drop for Within<'g, 'c> {
    fn drop(self)
        ensures { self.exit.0.now ≡ record { table = self.entry.table; class = self.entry.class } }
    {
        self.cursor.table = self.table;
        self.cursor.class = self.class;
        let Within {
            cursor: _,
            table: _,
            class: _,
        } = self;
    }
}

impl<'c> Cursor<'c> {
    // `name` as it is entered where the cursor stands.
    pub(crate) fn mangle(&self, name: &'c [u8]) -> Mangled<'c, 'c>
        ensures { text_of result ≡ mangled (class_of self.now) name.now }
    {
        mangle_name(self.class.unwrap_or_default(), name)
    }
}

impl Memory<'_> {
    // Whether a table in this one is nested; none is around the module.
    fn nests(&self, around: Option<usize>) -> bool
        ensures { result ≡ nests_in (held self.now) around }
    {
        let Some(table) = around else {
            return false;
        };
        self.tables.get(table).is_some_and(|found| found.is_nested
            || found.typ == SymbolTableType::Function)
    }

    // Adds a table, and answers its number. Memory is asked for its name first, then for its record; where there is none
    // for the record, the name goes too.
    #[tactic(auto, unfolding(crate::specs::Tables::open_table))]
    pub fn add_table(
        &mut self,
        around: Option<usize>,
        typ: SymbolTableType,
        name: &[u8],
        spot: Spot,
    ) -> Result<usize, Fault>
        ensures { Gives (length (held self.old).tables) self.old (open_table (room_of self.old) (held self.old) around typ name.now spot) result self.new }
    {
        let is_nested = self.nests(around);
        let counts = self.counts();
        let Ok(text) = self.intern(&Mangled::from(name)) else {
            return Err(MemoryFault {
                reason: MemoryReason::Texts,
                spot,
            }
            .into());
        };
        match self.tables.push(SymbolTable {
            parent: around,
            typ,
            name: text,
            line_number: spot.row,
            is_nested,
        }) {
            Ok(number) => Ok(number),
            Err(_) => {
                self.take_back(&counts);
                Err(MemoryFault {
                    reason: MemoryReason::Tables,
                    spot,
                }
                .into())
            }
        }
    }
}

impl Cursor<'_> {
    // Opens a table in the open one; the cursor then stands in it. A refusal leaves the cursor where it is.
    pub fn enter_scope(
        &mut self,
        memory: &mut Memory<'_>,
        typ: SymbolTableType,
        name: &[u8],
        spot: Spot,
    ) -> Result<(), Fault>
        ensures does { Does memory.old (open_table (room_of memory.old) (held memory.old) (Some self.old.table) typ name.now spot) result memory.new }
        ensures cursor { self.new ≡ record { table = (if is_ok result then length (held memory.old).tables else self.old.table); class = self.old.class } }
    {
        self.table = memory.add_table(Some(self.table), typ, name, spot)?;
        Ok(())
    }
}
