// A symbol: one name in one table.
ghost use Rattle.std.specs.Prelude.{◌≡◌};
ghost use Rattle.symbols.specs.Flags.{shares, bound};
ghost use Rattle.symbols.specs.Usage.{global_scope, local_scope};

use crate::fault::Spot;
use crate::flags::SymbolFlags;
use crate::scope::SymbolScope;

// What is known of a name in a table. `table` is the table's number and `name` the number of the text; `global` says
// that the table declares the name global; `spot` is that of the node that entered it first.
#[derive(Clone, Copy, Drop, PartialEq, Eq, Debug)]
pub struct Symbol {
    pub table: usize,
    pub name: usize,
    pub scope: SymbolScope,
    pub flags: SymbolFlags,
    pub global: bool,
    pub spot: Spot,
}

impl Symbol {
    // Whether the name belongs to the module, by its scope.
    pub fn is_global(&self) -> bool
        ensures { result ≡ global_scope self.now.scope }
    {
        matches!(
            self.scope,
            SymbolScope::GlobalExplicit | SymbolScope::GlobalImplicit
        )
    }

    // Whether the name belongs to its table, by its scope.
    pub fn is_local(&self) -> bool
        ensures { result ≡ local_scope self.now.scope }
    {
        matches!(self.scope, SymbolScope::Local | SymbolScope::Cell)
    }

    // Whether some role has bound the name.
    pub fn is_bound(&self) -> bool
        ensures { result ≡ shares self.now.flags.bits bound }
    {
        self.flags.intersects(SymbolFlags::BOUND)
    }
}
