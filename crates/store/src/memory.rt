// The memory that a caller lends, and what it holds.
ghost use Rattle.std.specs.Prelude.{◌≡◌};
ghost use Rattle.store.specs.Memory.{counts_of};

use crate::record::SymbolRecord;
use crate::text::Text;
use ordered::Ordered;
use symbols::table::SymbolTable;

// No more is used of each area, however long it is.
pub const MOST_TABLES: usize = 65_535;

pub const MOST_SYMBOLS: usize = 1_048_575;

pub const MOST_TEXTS: usize = 1_048_575;

pub const MOST_BYTES: usize = 16_777_215;

// How much of each area is in use. What lies past it is free.
#[derive(Clone, Copy, Drop)]
pub struct Counts {
    pub tables: usize,
    pub symbols: usize,
    pub texts: usize,
    pub bytes: usize,
}

// The four areas: records of tables, symbols and texts, and the bytes of the texts.
#[derive(Drop)]
pub struct Memory<'a> {
    pub tables: Ordered<'a, SymbolTable>,
    pub symbols: Ordered<'a, SymbolRecord>,
    pub texts: Ordered<'a, Text>,
    pub bytes: Ordered<'a, u8>,
}

impl<'a> Memory<'a> {
    // The areas with these counts.
    pub fn new(
        tables: &'a mut [SymbolTable],
        symbols: &'a mut [SymbolRecord],
        texts: &'a mut [Text],
        bytes: &'a mut [u8],
        counts: Counts,
    ) -> Memory<'a>
        ensures tables { result.tables ≡ record { places = tables.entry; count = counts.tables; limit = 65535 } }
        ensures symbols { result.symbols ≡ record { places = symbols.entry; count = counts.symbols; limit = 1048575 } }
        ensures texts { result.texts ≡ record { places = texts.entry; count = counts.texts; limit = 1048575 } }
        ensures bytes { result.bytes ≡ record { places = bytes.entry; count = counts.bytes; limit = 16777215 } }
    {
        let tables = Ordered::new(tables, counts.tables, MOST_TABLES);
        let symbols = Ordered::new(symbols, counts.symbols, MOST_SYMBOLS);
        let texts = Ordered::new(texts, counts.texts, MOST_TEXTS);
        let bytes = Ordered::new(bytes, counts.bytes, MOST_BYTES);
        Memory {
            tables,
            symbols,
            texts,
            bytes,
        }
    }
}

impl Memory<'_> {
    // How much of each area is in use.
    pub fn counts(&self) -> Counts
        ensures { result ≡ counts_of self.now }
    {
        Counts {
            tables: self.tables.count(),
            symbols: self.symbols.count(),
            texts: self.texts.count(),
            bytes: self.bytes.count(),
        }
    }
}
