// Where a name belongs, as the interpreter reads it.
ghost use Rattle.std.specs.Prelude.{◌≡◌, Some};
ghost use Rattle.symbols.specs.Words.{scope_word};

use std::fmt;

// The scope of a name in its table. A name that is not resolved yet is Unknown, GlobalExplicit where it is declared
// global, or Free where it is declared nonlocal.
#[derive(Clone, Copy, Drop, PartialEq, Eq, Debug)]
pub enum SymbolScope {
    Unknown,
    Local,
    GlobalExplicit,
    GlobalImplicit,
    Free,
    Cell,
}

impl SymbolScope {
    // The word that a listing prints.
    pub fn word(self) -> &'static str
        ensures { result.now ≡ scope_word self }
    {
        match self {
            SymbolScope::Unknown => "Unknown",
            SymbolScope::Local => "Local",
            SymbolScope::GlobalExplicit => "GlobalExplicit",
            SymbolScope::GlobalImplicit => "GlobalImplicit",
            SymbolScope::Free => "Free",
            SymbolScope::Cell => "Cell",
        }
    }
}

impl fmt::Display for SymbolScope {
    ghost output = { λ scope. Some (scope_word scope) };

    fn fmt<W: fmt::Write>(&self, f: &mut fmt::Formatter<W>) -> fmt::Result {
        f.write_str(self.word())
    }
}
