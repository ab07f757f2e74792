// One name in one table: in a first role, and in a second after it.
use crate::outcomes::Outcome::{Masks as M, Refused as R};
use crate::outcomes::*;
use crate::places::Places;
use std::process::Abort;
use std::test::Fail;
use symbols::table::SymbolTableType::{Class, Comprehension, Function};
use symbols::usage::SymbolUsage;

// Of each role on a new name: the masks, the word of the scope, and whether the name is declared global.
const FIRST: [(SymbolUsage, u16, &str, bool); 10] = [
    (SymbolUsage::Global, 0x000, "GlobalExplicit", true),
    (SymbolUsage::Nonlocal, 0x020, "Free", false),
    (SymbolUsage::Used, 0x001, "Unknown", false),
    (SymbolUsage::Assigned, 0x002, "Unknown", false),
    (SymbolUsage::Imported, 0x012, "Unknown", false),
    (SymbolUsage::AnnotationAssigned, 0x00A, "Unknown", false),
    (SymbolUsage::Parameter, 0x004, "Unknown", false),
    (SymbolUsage::AnnotationParameter, 0x00C, "Unknown", false),
    (
        SymbolUsage::AssignedNamedExprInComprehension,
        0x042,
        "Unknown",
        false,
    ),
    (SymbolUsage::Iter, 0x080, "Unknown", false),
];

// A role and a second after it: the line is the first role and the column the second, both in the order of `FIRST`. A
// cell is what comes of both: `M` has masks, and `R` the number of a fault. Here are the columns of the two declarations.
const DECLARED_SECOND: [[Outcome; 2]; 10] = [
    [M(0x000), R(16)],
    [R(16), M(0x020)],
    [R(12), R(12)],
    [R(14), R(14)],
    [R(14), R(14)],
    [R(13), R(13)],
    [R(11), R(11)],
    [R(11), R(11)],
    [R(14), R(14)],
    [M(0x080), M(0x0A0)],
];

// The columns from Used to AnnotationAssigned.
const BOUND_SECOND: [[Outcome; 4]; 10] = [
    [M(0x001), M(0x002), M(0x012), M(0x00A)],
    [M(0x021), M(0x022), M(0x032), M(0x02A)],
    [M(0x001), M(0x003), M(0x013), M(0x00B)],
    [M(0x003), M(0x002), M(0x012), M(0x00A)],
    [M(0x013), M(0x012), M(0x012), M(0x01A)],
    [M(0x00B), M(0x00A), M(0x01A), M(0x00A)],
    [M(0x005), M(0x006), M(0x016), M(0x00E)],
    [M(0x00D), M(0x00E), M(0x01E), M(0x00E)],
    [M(0x043), M(0x042), M(0x052), M(0x04A)],
    [M(0x081), R(17), R(17), R(17)],
];

// The columns from Parameter to Iter.
const PARAMETER_SECOND: [[Outcome; 4]; 10] = [
    [M(0x004), M(0x00C), M(0x042), M(0x080)],
    [M(0x024), M(0x02C), M(0x062), M(0x0A0)],
    [M(0x005), M(0x00D), M(0x043), M(0x081)],
    [M(0x006), M(0x00E), M(0x042), R(17)],
    [M(0x016), M(0x01E), M(0x052), R(17)],
    [M(0x00E), M(0x00E), M(0x04A), R(17)],
    [M(0x004), M(0x00C), M(0x046), M(0x084)],
    [M(0x00C), M(0x00C), M(0x04E), M(0x08C)],
    [M(0x046), M(0x04E), M(0x042), R(17)],
    [M(0x084), M(0x08C), R(17), M(0x080)],
];

// Two roles that were accepted, and the outcome of a third: of the reasons against a declaration the first counts.
const THIRD: [(SymbolUsage, SymbolUsage, SymbolUsage, Outcome); 12] = [
    (
        SymbolUsage::Parameter,
        SymbolUsage::Used,
        SymbolUsage::Global,
        R(11),
    ),
    (
        SymbolUsage::AnnotationParameter,
        SymbolUsage::Assigned,
        SymbolUsage::Nonlocal,
        R(11),
    ),
    (
        SymbolUsage::AnnotationAssigned,
        SymbolUsage::Used,
        SymbolUsage::Nonlocal,
        R(12),
    ),
    (
        SymbolUsage::Global,
        SymbolUsage::Used,
        SymbolUsage::Global,
        R(12),
    ),
    (
        SymbolUsage::Global,
        SymbolUsage::AnnotationAssigned,
        SymbolUsage::Nonlocal,
        R(13),
    ),
    (
        SymbolUsage::Global,
        SymbolUsage::Assigned,
        SymbolUsage::Global,
        R(14),
    ),
    (
        SymbolUsage::Nonlocal,
        SymbolUsage::Imported,
        SymbolUsage::Global,
        R(14),
    ),
    (
        SymbolUsage::Nonlocal,
        SymbolUsage::Used,
        SymbolUsage::Nonlocal,
        R(12),
    ),
    (
        SymbolUsage::Nonlocal,
        SymbolUsage::Iter,
        SymbolUsage::Global,
        R(16),
    ),
    (
        SymbolUsage::Global,
        SymbolUsage::Iter,
        SymbolUsage::Nonlocal,
        R(16),
    ),
    (
        SymbolUsage::Used,
        SymbolUsage::Iter,
        SymbolUsage::Assigned,
        R(17),
    ),
    (
        SymbolUsage::Global,
        SymbolUsage::Global,
        SymbolUsage::Global,
        M(0x000),
    ),
];

// A new name in table `table` of a module, a function, a class in it and a comprehension in that.
fn first(rt: &impl Abort, table: usize, case: (SymbolUsage, u16, &str, bool)) -> Result<(), Fail> {
    let (role, bits, word, global) = case;
    let mut places = Places::new();
    let mut memory = places.memory();
    open(&mut memory, &[Function, Class, Comprehension])?;
    memory.register_name(&inside(table), b"x", role, spot(1))?;
    let found = symbol(&memory, table, b"x").ok_or("no symbol")?;
    assert_eq!(rt; found.flags.bits, bits);
    assert_eq!(rt; found.scope.word(), word);
    assert_eq!(rt; found.global, global);
    assert_eq!(rt; found.table, table);
    assert_eq!(rt; found.spot.node, 1);
    assert_eq!(rt; found.spot.row, 101);
    assert_eq!(rt; memory.counts().symbols, 1);
    Ok(())
}

#[test]
fn first_roles(rt: HostRuntime) -> Result<(), Fail> {
    for case in FIRST {
        for table in 1..=3 {
            first(&rt, table, case)?;
        }
    }
    Ok(())
}

// A name in a function, first in one role and then in another. A refused entering leaves the symbol as it was, an
// accepted one leaves node, row and what the first role declared.
fn second(
    rt: &impl Abort,
    earlier: SymbolUsage,
    later: SymbolUsage,
    expected: Outcome,
) -> Result<(), Fail> {
    let mut places = Places::new();
    let mut memory = places.memory();
    let table = open(&mut memory, &[Function])?;
    memory.register_name(&inside(table), b"x", earlier, spot(1))?;
    let before = symbol(&memory, table, b"x").ok_or("no symbol")?;
    let result = memory.register_name(&inside(table), b"x", later, spot(2));
    assert_eq!(rt; Outcome::of(&memory, result, table, b"x"), expected);
    assert_eq!(rt; memory.counts().symbols, 1);
    let after = symbol(&memory, table, b"x").ok_or("no symbol")?;
    match result {
        Ok(()) => {
            assert_eq!(rt; after.spot.node, 1);
            assert_eq!(rt; after.spot.row, 101);
            assert_eq!(rt; after.global, before.global || later == SymbolUsage::Global);
            Ok(())
        }
        Err(fault) => {
            assert_eq!(rt; fault.spot(), spot(2));
            assert_eq!(rt; after, before);
            Ok(())
        }
    }
}

#[test]
fn second_roles(rt: HostRuntime) -> Result<(), Fail> {
    let lines = DECLARED_SECOND
        .into_iter()
        .zip(BOUND_SECOND)
        .zip(PARAMETER_SECOND);
    for ((earlier, ..), ((declared, bound), parameter)) in FIRST.into_iter().zip(lines) {
        let columns = declared.into_iter().chain(bound).chain(parameter);
        for ((later, ..), expected) in FIRST.into_iter().zip(columns) {
            second(&rt, earlier, later, expected)?;
        }
    }
    Ok(())
}

#[test]
fn third_roles(rt: HostRuntime) -> Result<(), Fail> {
    for (one, two, three, expected) in THIRD {
        let mut places = Places::new();
        let mut memory = places.memory();
        let table = open(&mut memory, &[Function])?;
        memory.register_name(&inside(table), b"x", one, spot(1))?;
        memory.register_name(&inside(table), b"x", two, spot(2))?;
        let result = memory.register_name(&inside(table), b"x", three, spot(3));
        assert_eq!(rt; Outcome::of(&memory, result, table, b"x"), expected);
    }
    Ok(())
}

// In the module a new name is not nonlocal; one that is there already is declared as anywhere.
#[test]
fn nonlocal_in_the_module(rt: HostRuntime) -> Result<(), Fail> {
    let cases: [(SymbolUsage, Outcome); 5] = [
        (SymbolUsage::Used, R(12)),
        (SymbolUsage::Assigned, R(14)),
        (SymbolUsage::Parameter, R(11)),
        (SymbolUsage::Global, R(16)),
        (SymbolUsage::Iter, M(0x0A0)),
    ];
    for (role, expected) in cases {
        let mut places = Places::new();
        let mut memory = places.memory();
        open(&mut memory, &[])?;
        let new = memory.register_name(&inside(0), b"x", SymbolUsage::Nonlocal, spot(1));
        assert_eq!(rt; Outcome::of(&memory, new, 0, b"x"), R(15));
        memory.register_name(&inside(0), b"x", role, spot(2))?;
        let result = memory.register_name(&inside(0), b"x", SymbolUsage::Nonlocal, spot(3));
        assert_eq!(rt; Outcome::of(&memory, result, 0, b"x"), expected);
    }
    Ok(())
}
