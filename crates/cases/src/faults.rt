// Number, layer and spot of a fault.
use crate::outcomes::*;
use crate::places::Places;
use std::process::Abort;
use std::test::Fail;
use symbols::fault::{Fault, MemoryFault, MemoryReason, ScanFault, ScanReason};
use symbols::usage::SymbolUsage;
use treefile::fault::Layer;

const SCAN: [(ScanReason, u8); 11] = [
    (ScanReason::Unsupported, 10),
    (ScanReason::Parameter, 11),
    (ScanReason::Used, 12),
    (ScanReason::Annotated, 13),
    (ScanReason::Assigned, 14),
    (ScanReason::ModuleNonlocal, 15),
    (ScanReason::GlobalNonlocal, 16),
    (ScanReason::IterAssigned, 17),
    (ScanReason::NamedInIterable, 18),
    (ScanReason::NamedInClass, 19),
    (ScanReason::StarOutsideModule, 20),
];

const MEMORY: [(MemoryReason, u8); 4] = [
    (MemoryReason::Tables, 22),
    (MemoryReason::Symbols, 23),
    (MemoryReason::Texts, 24),
    (MemoryReason::Counts, 25),
];

fn is_fault(rt: &impl Abort, fault: Fault, number: u8, layer: Layer, node: u8) {
    assert_eq!(rt; fault.number(), number);
    assert_eq!(rt; fault.layer(), layer);
    assert_eq!(rt; fault.spot(), spot(node));
}

#[test]
fn reasons(rt: HostRuntime) {
    for (reason, number) in SCAN {
        let fault = ScanFault {
            reason,
            spot: spot(number),
        };
        is_fault(&rt, Fault::from(fault), number, Layer::Scan, number);
    }
    for (reason, number) in MEMORY {
        let fault = MemoryFault {
            reason,
            spot: spot(number),
        };
        is_fault(&rt, Fault::from(fault), number, Layer::Memory, number);
    }
}

// A refused entering has its own node and row, not those of the entering before it.
#[test]
fn spots(rt: HostRuntime) -> Result<(), Fail> {
    let mut places = Places::new();
    let mut memory = places.lent([1, 1, 2, 4], [0; 4]);
    open(&mut memory, &[])?;
    memory.register_name(&inside(0), b"x", SymbolUsage::Used, spot(7))?;
    let Err(scan) = memory.register_name(&inside(0), b"x", SymbolUsage::Global, spot(8)) else {
        return Err(Fail::new("declared after it was used"));
    };
    is_fault(&rt, scan, 12, Layer::Scan, 8);
    let Err(full) = memory.register_name(&inside(0), b"y", SymbolUsage::Used, spot(9)) else {
        return Err(Fail::new("a text without a place"));
    };
    is_fault(&rt, full, 24, Layer::Memory, 9);
    Ok(())
}
