// A table: one for the module, and one for each class, function, lambda and comprehension.
ghost use Rattle.std.specs.Prelude.{◌≡◌, Some};
ghost use Rattle.symbols.specs.Words.{kind_word};

use std::fmt;

// What a table stands for.
#[derive(Clone, Copy, Drop, PartialEq, Eq, Debug)]
pub enum SymbolTableType {
    Module,
    Class,
    Function,
    Comprehension,
}

impl SymbolTableType {
    // The word that a listing prints.
    pub fn word(self) -> &'static str
        ensures { result.now ≡ kind_word self }
    {
        match self {
            SymbolTableType::Module => "Module",
            SymbolTableType::Class => "Class",
            SymbolTableType::Function => "Function",
            SymbolTableType::Comprehension => "Comprehension",
        }
    }
}

impl fmt::Display for SymbolTableType {
    ghost output = { λ kind. Some (kind_word kind) };

    fn fmt<W: fmt::Write>(&self, f: &mut fmt::Formatter<W>) -> fmt::Result {
        f.write_str(self.word())
    }
}

// A table's record. `parent` is the number of the table around it, which the module has none of; `name` is the number
// of a text; `is_nested` says that a function stands somewhere around it.
#[derive(Clone, Copy, Drop)]
pub struct SymbolTable {
    pub parent: Option<usize>,
    pub typ: SymbolTableType,
    pub name: usize,
    pub line_number: u32,
    pub is_nested: bool,
}
