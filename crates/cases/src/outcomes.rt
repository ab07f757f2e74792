// What an example asks of its memory.
use store::cursor::Cursor;
use store::mangle::Mangled;
use store::memory::Memory;
use symbols::fault::{Fault, Spot};
use symbols::symbol::Symbol;
use symbols::table::SymbolTableType;

// What comes of an entering.
#[derive(Clone, Copy, Drop, PartialEq, Eq, Debug)]
pub(crate) enum Outcome {
    // the masks of the symbol after it
    Masks(u16),
    // it is refused, and this is the number of the fault
    Refused(u8),
    // there is no such symbol
    Absent,
}

// A node in a row of its own.
pub(crate) fn spot(node: u8) -> Spot {
    Spot {
        node: node as u32,
        row: 100 + node as u32,
    }
}

// The cursor in a table outside of classes.
pub(crate) fn inside(table: usize) -> Cursor<'static> {
    Cursor { table, class: None }
}

// The symbol of a name as it is entered.
pub(crate) fn symbol(memory: &Memory<'_>, table: usize, name: &[u8]) -> Option<Symbol> {
    let i = memory.find_name(table, &Mangled::from(name))?;
    let found = memory.symbols.get(i)?;
    Some(found.symbol)
}

// What a name has.
pub(crate) fn masks(memory: &Memory<'_>, table: usize, name: &[u8]) -> Outcome {
    match symbol(memory, table, name) {
        Some(found) => Outcome::Masks(found.flags.bits),
        None => Outcome::Absent,
    }
}

impl Outcome {
    // The outcome of an entering in a table.
    pub(crate) fn of(
        memory: &Memory<'_>,
        res: Result<(), Fault>,
        table: usize,
        name: &[u8],
    ) -> Outcome {
        match res {
            Ok(()) => masks(memory, table, name),
            Err(fault) => Outcome::Refused(fault.number()),
        }
    }
}

// Opens the module, and these tables in it, each in the one before it; and answers the number of the innermost.
pub(crate) fn open(memory: &mut Memory<'_>, kinds: &[SymbolTableType]) -> Result<usize, Fault> {
    let mut last = memory.add_table(None, SymbolTableType::Module, b"top", spot(0))?;
    for kind in kinds {
        last = memory.add_table(Some(last), *kind, b"f", spot(0))?;
    }
    Ok(last)
}
