// Why a role is refused for a name that its table has.
ghost use Rattle.std.specs.Prelude.{◌≡◌};
ghost use Rattle.store.specs.Enterings.{too_late, misdeclared, objection};
ghost use Rattle.symbols.specs.Faults.{judged};

use crate::entry::Entry;
use symbols::fault::{ScanFault, ScanReason};
use symbols::flags::SymbolFlags;
use symbols::symbol::Symbol;
use symbols::usage::SymbolUsage;

// Why a declaration comes too late for a name with these masks.
fn too_late(flags: SymbolFlags) -> Option<ScanReason>
    ensures { result ≡ too_late flags.bits }
{
    if flags.contains(SymbolFlags::PARAMETER) {
        Some(ScanReason::Parameter)
    } else if flags.contains(SymbolFlags::REFERENCED) {
        Some(ScanReason::Used)
    } else if flags.contains(SymbolFlags::ANNOTATED) {
        Some(ScanReason::Annotated)
    } else if flags.contains(SymbolFlags::ASSIGNED) {
        Some(ScanReason::Assigned)
    } else {
        None
    }
}

// Why a declaration is refused: it comes too late, or the name is declared the other way.
fn misdeclaration(role: SymbolUsage, symbol: Symbol) -> Option<ScanReason>
    ensures { result ≡ misdeclared role symbol }
{
    let other_way = match role {
        SymbolUsage::Global => symbol.flags.contains(SymbolFlags::NONLOCAL),
        SymbolUsage::Nonlocal => symbol.global,
        _ => return None,
    };
    too_late(symbol.flags).or(other_way.then_some(ScanReason::GlobalNonlocal))
}

impl Entry<'_, '_> {
    // Tests the role against what the table has done with the name.
    pub(crate) fn check_again(&self, symbol: Symbol) -> Result<(), ScanFault>
        ensures { result ≡ judged (objection self.now.role symbol) self.now.spot }
    {
        let spot = self.spot;
        if let Some(reason) = misdeclaration(self.role, symbol) {
            return Err(ScanFault { reason, spot });
        }
        let flags = symbol.flags | self.role.flags();
        if flags.contains(SymbolFlags::ITER) && flags.contains(SymbolFlags::ASSIGNED) {
            return Err(ScanFault {
                reason: ScanReason::IterAssigned,
                spot,
            });
        }
        Ok(())
    }
}
