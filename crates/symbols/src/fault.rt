// Why an entering is refused.
ghost use Rattle.std.specs.Prelude.{◌≡◌};
ghost use Rattle.symbols.specs.Faults.{scan_number, scan_layer, memory_number, memory_layer, fault_number, fault_layer, fault_spot};
ghost use Rattle.symbols.specs.declared.fault.Fault.TheVariants.{Scan, Memory};

use treefile::fault::Layer;
pub use treefile::fault::{Reason, Refusal, Spot};

// What is wrong with a script, by the number that a listing prints.
#[derive(Clone, Copy, Drop, PartialEq, Eq, Debug)]
pub enum ScanReason {
    // a statement that has no tables yet
    Unsupported = 10,
    // a name that is declared global or nonlocal, but was a parameter, used, annotated or assigned before
    Parameter = 11,
    Used = 12,
    Annotated = 13,
    Assigned = 14,
    // a nonlocal declaration of a new name in the module
    ModuleNonlocal = 15,
    // a name that is declared both global and nonlocal in one table
    GlobalNonlocal = 16,
    // the target of a `for` in a comprehension that is assigned there
    IterAssigned = 17,
    // a named expression in the iterable of a comprehension
    NamedInIterable = 18,
    // a named expression in a comprehension whose host is a class
    NamedInClass = 19,
    // an import of `*` outside the module
    StarOutsideModule = 20,
}

// What is wrong with the memory, by the number that a listing prints.
#[derive(Clone, Copy, Drop, PartialEq, Eq, Debug)]
pub enum MemoryReason {
    // no place for one more table, symbol or text
    Tables = 22,
    Symbols = 23,
    Texts = 24,
    // what is there does not fit the counts
    Counts = 25,
}

// A reason of the scan, and the node and the row that it belongs to.
pub type ScanFault = Refusal<ScanReason>;

// A reason of the memory, and the node and the row that it belongs to.
pub type MemoryFault = Refusal<MemoryReason>;

// Why an entering is refused: by the script, or for want of memory.
#[derive(Clone, Copy, Drop, PartialEq, Eq, Debug)]
pub enum Fault {
    Scan(ScanFault),
    Memory(MemoryFault),
}

impl Reason for ScanReason {
    ghost number_of = { scan_number };

    ghost layer_of = { scan_layer };

    fn number(self) -> u8 {
        self as u8 // one of the scan's numbers
    }

    fn layer(self) -> Layer {
        Layer::Scan
    }
}

impl Reason for MemoryReason {
    ghost number_of = { memory_number };

    ghost layer_of = { memory_layer };

    fn number(self) -> u8 {
        self as u8 // one of the memory's numbers
    }

    fn layer(self) -> Layer {
        Layer::Memory
    }
}

impl From<ScanFault> for Fault {
    ghost from_gives = { λ f r. r ≡ Scan f };

    fn from(fault: ScanFault) -> Fault {
        Fault::Scan(fault)
    }
}

impl From<MemoryFault> for Fault {
    ghost from_gives = { λ f r. r ≡ Memory f };

    fn from(fault: MemoryFault) -> Fault {
        Fault::Memory(fault)
    }
}

impl Fault {
    pub fn number(self) -> u8
        ensures { result ≡ fault_number self }
    {
        match self {
            Fault::Scan(fault) => fault.number(),
            Fault::Memory(fault) => fault.number(),
        }
    }

    pub fn layer(self) -> Layer
        ensures { result ≡ fault_layer self }
    {
        match self {
            Fault::Scan(fault) => fault.layer(),
            Fault::Memory(fault) => fault.layer(),
        }
    }

    // The node and the row that it belongs to.
    pub fn spot(self) -> Spot
        ensures { result ≡ fault_spot self }
    {
        match self {
            Fault::Scan(fault) => fault.spot,
            Fault::Memory(fault) => fault.spot,
        }
    }
}
