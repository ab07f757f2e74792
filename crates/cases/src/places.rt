// Small places for one example.
use store::memory::{Counts, Memory};
use store::record::{Mark, SymbolRecord};
use store::text::Text;
use symbols::fault::Spot;
use symbols::flags::SymbolFlags;
use symbols::scope::SymbolScope;
use symbols::symbol::Symbol;
use symbols::table::{SymbolTable, SymbolTableType};

const FREE_TABLE: SymbolTable = SymbolTable {
    parent: None,
    typ: SymbolTableType::Module,
    name: 0,
    line_number: 0,
    is_nested: false,
};

const FREE_SYMBOL: SymbolRecord = SymbolRecord {
    symbol: Symbol {
        table: 0,
        name: 0,
        scope: SymbolScope::Unknown,
        flags: SymbolFlags { bits: 0 },
        global: false,
        spot: Spot { node: 0, row: 0 },
    },
    mark: Mark {
        scope: SymbolScope::Unknown,
        flags: SymbolFlags { bits: 0 },
        global: false,
    },
};

// Places for a few records of each sort.
#[derive(Drop)]
pub(crate) struct Places {
    tables: [SymbolTable; 8],
    symbols: [SymbolRecord; 8],
    texts: [Text; 8],
    bytes: [u8; 64],
}

// So many tables, symbols, texts and bytes.
fn counts(of: [usize; 4]) -> Counts {
    let [tables, symbols, texts, bytes] = of;
    Counts {
        tables,
        symbols,
        texts,
        bytes,
    }
}

// How many tables, symbols, texts and bytes are in use.
pub(crate) fn in_use(memory: &Memory<'_>) -> [usize; 4] {
    let Counts {
        tables,
        symbols,
        texts,
        bytes,
    } = memory.counts();
    [tables, symbols, texts, bytes]
}

// The first `n` places, or all of them.
fn front<T>(places: &mut [T], n: usize) -> &mut [T] {
    let most = places.len();
    &mut places[..n.min(most)]
}

impl Places {
    pub(crate) fn new() -> Places {
        Places {
            tables: [FREE_TABLE; 8],
            symbols: [FREE_SYMBOL; 8],
            texts: [Text { start: 0, len: 0 }; 8],
            bytes: [0; 64],
        }
    }

    // A memory of so many places, with these counts.
    pub(crate) fn lent(&mut self, room: [usize; 4], held: [usize; 4]) -> Memory<'_> {
        let room = counts(room);
        let Places {
            tables,
            symbols,
            texts,
            bytes,
        } = self;
        Memory::new(
            front(tables, room.tables),
            front(symbols, room.symbols),
            front(texts, room.texts),
            front(bytes, room.bytes),
            counts(held),
        )
    }

    // An empty memory over all places.
    pub(crate) fn memory(&mut self) -> Memory<'_> {
        self.lent([8, 8, 8, 64], [0; 4])
    }
}
