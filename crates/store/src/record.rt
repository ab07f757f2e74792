// A symbol as it lies in memory.
ghost use Rattle.std.specs.Prelude.{◌≡◌, [], ◌∷◌};

use ordered::Keyed;
use symbols::flags::SymbolFlags;
use symbols::scope::SymbolScope;
use symbols::symbol::Symbol;

// What entering can change in a symbol.
#[derive(Clone, Copy, Drop)]
pub struct Mark {
    pub scope: SymbolScope,
    pub flags: SymbolFlags,
    pub global: bool,
}

// What entering can change in this symbol.
impl From<Symbol> for Mark {
    ghost from_gives = { λ symbol mark. mark ≡ record { scope = symbol.scope; flags = symbol.flags; global = symbol.global } };

    fn from(symbol: Symbol) -> Mark {
        Mark {
            scope: symbol.scope,
            flags: symbol.flags,
            global: symbol.global,
        }
    }
}

// A symbol, and a place to keep what it was when a part began.
#[derive(Clone, Copy, Drop)]
pub struct SymbolRecord {
    pub symbol: Symbol,
    pub mark: Mark,
}

// What a symbol is known by: its table, and the number of its name's text.
#[derive(Clone, Copy, Drop)]
pub struct SymbolKey {
    pub table: usize,
    pub text: usize,
}

impl Keyed<SymbolKey> for SymbolRecord {
    ghost key = { λ x _. x.symbol.table ∷ x.symbol.name ∷ [] };

    ghost asked = { λ key. key.table ∷ key.text ∷ [] };

    fn matches(&self, _texts: &[u8], key: &SymbolKey) -> bool {
        self.symbol.table == key.table && self.symbol.name == key.text
    }
}
