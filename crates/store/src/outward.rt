// What one name of the script enters beside the plain case.
ghost use Rattle.std.specs.Prelude.{◌≡◌, not, ◌&&◌, ◌||◌, codes};
ghost use Rattle.std.specs.Str.{bytes_eq};
ghost use Rattle.store.specs.Enterings.{is_module, kind_of};
ghost use Rattle.store.specs.Mangling.{class_of, mangled};
ghost use Rattle.store.specs.Memory.{held, room_of, Does};
ghost use Rattle.store.specs.Outward.{around_comprehension, is_class, is_comprehension, enter_target, enter_import, enter_use};
ghost use Rattle.store.specs.Tables.{is_function};

use crate::cursor::Cursor;
use crate::entry::Entry;
use crate::memory::Memory;
use symbols::fault::{Fault, ScanFault, ScanReason, Spot};
use symbols::table::SymbolTableType;
use symbols::usage::SymbolUsage;

// Whether a table of this kind reads `__class__` with `super`.
fn has_super(typ: SymbolTableType) -> bool
    ensures { result ≡ (is_function typ || is_comprehension typ) }
{
    matches!(
        typ,
        SymbolTableType::Function | SymbolTableType::Comprehension
    )
}

impl Memory<'_> {
    // Whether this name is `*`, and the table is not the module's.
    fn is_misplaced_star(&self, table: usize, name: &[u8]) -> bool
        ensures { result ≡ (bytes_eq name.now (codes "*") && not (is_module (kind_of (held self.now) table))) }
    {
        matches!(name, b"*") && self.kind(table) != SymbolTableType::Module
    }

    // Whether this name is `super`, and the table is one that reads `__class__` with it.
    fn is_super(&self, table: usize, name: &[u8]) -> bool
        ensures { result ≡ (bytes_eq name.now (codes "super") && (is_function (kind_of (held self.now) table) || is_comprehension (kind_of (held self.now) table))) }
    {
        matches!(name, b"super") && has_super(self.kind(table))
    }

    // Whether comprehensions were passed and the table is a class's.
    fn is_class_host(&self, passed: bool, table: usize) -> bool
        ensures { result ≡ (passed && is_class (kind_of (held self.now) table)) }
    {
        passed && self.kind(table) == SymbolTableType::Class
    }

    // The table around a comprehension; nothing where the table is none, or its parent is not below it.
    fn around_comprehension(&self, table: usize) -> Option<usize>
        ensures { result ≡ around_comprehension (held self.now).tables table }
    {
        let found = self.tables.get(table)?;
        if found.typ != SymbolTableType::Comprehension {
            return None;
        }
        found.parent.filter(|around| *around < table)
    }

    // Enters the target of a named expression: in each comprehension that it stands in, from within outwards, and then in
    // their host, which may not be a class's.
    pub fn register_target(
        &mut self,
        cursor: &Cursor<'_>,
        name: &[u8],
        spot: Spot,
    ) -> Result<(), Fault>
        ensures { Does self.old (enter_target (room_of self.old) (held self.old) cursor.now.table (mangled (class_of cursor.now) name.now) spot) result self.new }
    {
        let name = cursor.mangle(name);
        let role = SymbolUsage::AssignedNamedExprInComprehension;
        let mut at = cursor.table;
        let mut passed = false;
        while let Some(around) = self.around_comprehension(at) {
            self.enter_name(&Entry {
                table: at,
                role,
                name,
                spot,
            })?;
            at = around;
            passed = true;
        }
        if self.is_class_host(passed, at) {
            return Err(ScanFault {
                reason: ScanReason::NamedInClass,
                spot,
            }
            .into());
        }
        self.enter_name(&Entry {
            table: at,
            role: SymbolUsage::Assigned,
            name,
            spot,
        })
    }

    // Enters a name that is imported: `*` only in the module.
    #[tactic(auto, unfolding(crate::specs::Outward::enter_import))]
    pub fn register_import(
        &mut self,
        cursor: &Cursor<'_>,
        name: &[u8],
        spot: Spot,
    ) -> Result<(), Fault>
        ensures { Does self.old (enter_import (room_of self.old) (held self.old) cursor.now.table (class_of cursor.now) name.now spot) result self.new }
    {
        if self.is_misplaced_star(cursor.table, name) {
            return Err(ScanFault {
                reason: ScanReason::StarOutsideModule,
                spot,
            }
            .into());
        }
        self.register_name(cursor, name, SymbolUsage::Imported, spot)
    }

    // Enters a name that is read: with `super`, a function and a comprehension read `__class__` too.
    #[tactic(auto, unfolding(crate::specs::Outward::enter_use))]
    pub fn register_use(
        &mut self,
        cursor: &Cursor<'_>,
        name: &[u8],
        spot: Spot,
    ) -> Result<(), Fault>
        ensures { Does self.old (enter_use (room_of self.old) (held self.old) cursor.now.table (class_of cursor.now) name.now spot) result self.new }
    {
        let with_class = self.is_super(cursor.table, name);
        self.register_name(cursor, name, SymbolUsage::Used, spot)?;
        if with_class {
            self.register_name(cursor, b"__class__", SymbolUsage::Used, spot)?;
        }
        Ok(())
    }
}
