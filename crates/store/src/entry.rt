// What is entered.
ghost use Rattle.std.specs.Prelude.{◌≡◌};
ghost use Rattle.store.specs.Enterings.{again, entered, first_objection};
ghost use Rattle.symbols.specs.Faults.{judged};

use crate::mangle::Mangled;
use symbols::fault::{ScanFault, ScanReason, Spot};
use symbols::scope::SymbolScope;
use symbols::symbol::Symbol;
use symbols::table::SymbolTableType;
use symbols::usage::SymbolUsage;

// A name in a role in a table, at a spot.
#[derive(Clone, Copy, Drop)]
pub(crate) struct Entry<'c, 'n> {
    pub(crate) table: usize,
    pub(crate) role: SymbolUsage,
    pub(crate) name: Mangled<'c, 'n>,
    pub(crate) spot: Spot,
}

impl Entry<'_, '_> {
    // The symbol that is new in the table, whose name's text has this number.
    pub(crate) fn new_symbol(&self, text: usize) -> Symbol
        ensures { result ≡ entered self.now.role self.now.table text self.now.spot }
    {
        Symbol {
            table: self.table,
            name: text,
            scope: self.role.scope(SymbolScope::Unknown),
            flags: self.role.flags(),
            global: self.role.is_global(),
            spot: self.spot,
        }
    }

    // The symbol that the table has, entered once more.
    pub(crate) fn entered_again(&self, symbol: Symbol) -> Symbol
        ensures { result ≡ again self.now.role symbol }
    {
        Symbol {
            scope: self.role.scope(symbol.scope),
            flags: symbol.flags | self.role.flags(),
            global: symbol.global || self.role.is_global(),
            ..symbol
        }
    }

    // Tests the role for a name that is new in a table of this kind.
    pub(crate) fn check_first(&self, typ: SymbolTableType) -> Result<(), ScanFault>
        ensures { result ≡ judged (first_objection self.now.role typ) self.now.spot }
    {
        match (self.role, typ) {
            (SymbolUsage::Nonlocal, SymbolTableType::Module) => Err(ScanFault {
                reason: ScanReason::ModuleNonlocal,
                spot: self.spot,
            }),
            _ => Ok(()),
        }
    }
}
