// Names that are entered in more than one table, or not in every table: targets of named expressions, `*` and `super`.
use crate::outcomes::Outcome::{Absent, Masks, Refused};
use crate::outcomes::*;
use crate::places::Places;
use std::test::Fail;
use symbols::table::SymbolTableType;
use symbols::table::SymbolTableType::{Class, Comprehension, Function};
use symbols::usage::SymbolUsage;

// Tables, one in the other, the first in the module; and what the target of a named expression in the innermost one has
// then in the module and in each of them.
const TARGETS: [(&[SymbolTableType], [Outcome; 4]); 11] = [
    (&[], [Masks(0x002), Absent, Absent, Absent]),
    (&[Function], [Absent, Masks(0x002), Absent, Absent]),
    (&[Class], [Absent, Masks(0x002), Absent, Absent]),
    (
        &[Comprehension],
        [Masks(0x002), Masks(0x042), Absent, Absent],
    ),
    (
        &[Comprehension, Comprehension],
        [Masks(0x002), Masks(0x042), Masks(0x042), Absent],
    ),
    (
        &[Function, Comprehension],
        [Absent, Masks(0x002), Masks(0x042), Absent],
    ),
    (
        &[Function, Comprehension, Comprehension],
        [Absent, Masks(0x002), Masks(0x042), Masks(0x042)],
    ),
    (
        &[Class, Function, Comprehension],
        [Absent, Absent, Masks(0x002), Masks(0x042)],
    ),
    (
        &[Class, Comprehension, Function],
        [Absent, Absent, Absent, Masks(0x002)],
    ),
    (
        &[Function, Comprehension, Class],
        [Absent, Absent, Absent, Masks(0x002)],
    ),
    (
        &[Comprehension, Function, Comprehension],
        [Absent, Absent, Masks(0x002), Masks(0x042)],
    ),
];

#[test]
fn targets(rt: HostRuntime) -> Result<(), Fail> {
    for (kinds, expected) in TARGETS {
        let mut places = Places::new();
        let mut memory = places.memory();
        let table = open(&mut memory, kinds)?;
        memory.register_target(&inside(table), b"x", spot(1))?;
        for (i, expected) in expected.into_iter().enumerate() {
            assert_eq!(rt; masks(&memory, i, b"x"), expected);
        }
        let first = memory.symbols.get(0).ok_or("no symbol")?;
        assert_eq!(rt; first.symbol.table, table, "from within outwards");
        assert_eq!(rt; first.symbol.spot.node, 1);
    }
    Ok(())
}

// Tables as above; the table where the target has a role already, and that role; and the number of the fault. A
// comprehension's own target is met on the way to a class.
const REFUSED: [(&[SymbolTableType], usize, SymbolUsage, u8); 9] = [
    (&[Class, Comprehension], 0, SymbolUsage::Used, 19),
    (
        &[Class, Comprehension, Comprehension],
        0,
        SymbolUsage::Used,
        19,
    ),
    (
        &[Function, Class, Comprehension],
        1,
        SymbolUsage::Assigned,
        19,
    ),
    (&[Class, Comprehension], 1, SymbolUsage::Iter, 19),
    (&[Class, Comprehension], 2, SymbolUsage::Iter, 17),
    (
        &[Class, Comprehension, Comprehension],
        2,
        SymbolUsage::Iter,
        17,
    ),
    (&[Function, Comprehension], 2, SymbolUsage::Iter, 17),
    (
        &[Function, Comprehension, Comprehension],
        3,
        SymbolUsage::Iter,
        17,
    ),
    (&[Comprehension], 1, SymbolUsage::Iter, 17),
];

#[test]
fn refused_targets(rt: HostRuntime) -> Result<(), Fail> {
    for (kinds, at, role, expected) in REFUSED {
        let mut places = Places::new();
        let mut memory = places.memory();
        let table = open(&mut memory, kinds)?;
        memory.register_name(&inside(at), b"x", role, spot(1))?;
        let Err(fault) = memory.register_target(&inside(table), b"x", spot(2)) else {
            return Err(Fail::new("accepted"));
        };
        assert_eq!(rt; fault.number(), expected);
        assert_eq!(rt; fault.spot(), spot(2));
    }
    Ok(())
}

// The host adds the target to what it has: a parameter, or a name that it declares global.
#[test]
fn hosts(rt: HostRuntime) -> Result<(), Fail> {
    let cases: [(SymbolUsage, u16, bool); 3] = [
        (SymbolUsage::Parameter, 0x006, false),
        (SymbolUsage::Global, 0x002, true),
        (SymbolUsage::Nonlocal, 0x022, false),
    ];
    for (role, expected, global) in cases {
        let mut places = Places::new();
        let mut memory = places.memory();
        let table = open(&mut memory, &[Function, Comprehension])?;
        memory.register_name(&inside(1), b"x", role, spot(1))?;
        memory.register_target(&inside(table), b"x", spot(2))?;
        let host = symbol(&memory, 1, b"x").ok_or("no symbol")?;
        assert_eq!(rt; host.flags.bits, expected);
        assert_eq!(rt; host.global, global);
        assert_eq!(rt; masks(&memory, table, b"x"), Masks(0x042));
    }
    Ok(())
}

// Tables as above, and in the innermost one: the outcome of importing `*`, and what `__class__` has after `super` is
// read.
const STAR_AND_SUPER: [(&[SymbolTableType], Outcome, Outcome); 7] = [
    (&[], Masks(0x012), Absent),
    (&[Function], Refused(20), Masks(0x001)),
    (&[Class], Refused(20), Absent),
    (&[Comprehension], Refused(20), Masks(0x001)),
    (&[Class, Function], Refused(20), Masks(0x001)),
    (&[Function, Class], Refused(20), Absent),
    (&[Class, Function, Comprehension], Refused(20), Masks(0x001)),
];

#[test]
fn star(rt: HostRuntime) -> Result<(), Fail> {
    for (kinds, expected, _) in STAR_AND_SUPER {
        let mut places = Places::new();
        let mut memory = places.memory();
        let table = open(&mut memory, kinds)?;
        let result = memory.register_import(&inside(table), b"*", spot(1));
        assert_eq!(rt; Outcome::of(&memory, result, table, b"*"), expected);
        memory.register_import(&inside(table), b"a", spot(2))?;
        assert_eq!(rt; masks(&memory, table, b"a"), Masks(0x012));
        assert_eq!(rt;
            masks(&memory, table, b"*") == Absent,
            expected == Refused(20)
        );
    }
    Ok(())
}

#[test]
fn super_reads_class(rt: HostRuntime) -> Result<(), Fail> {
    for (kinds, _, expected) in STAR_AND_SUPER {
        let mut places = Places::new();
        let mut memory = places.memory();
        let table = open(&mut memory, kinds)?;
        memory.register_use(&inside(table), b"sup", spot(1))?;
        memory.register_name(&inside(table), b"super", SymbolUsage::Assigned, spot(2))?;
        assert_eq!(rt; masks(&memory, table, b"__class__"), Absent);
        memory.register_use(&inside(table), b"super", spot(3))?;
        assert_eq!(rt; masks(&memory, table, b"super"), Masks(0x003));
        assert_eq!(rt; masks(&memory, table, b"__class__"), expected);
        if let Some(class) = symbol(&memory, table, b"__class__") {
            assert_eq!(rt; class.spot.node, 3);
            assert_eq!(rt; class.spot.row, 103);
        }
    }
    Ok(())
}
