// Tables in tables, and the guard that goes back.
use crate::outcomes::Outcome::{Masks, Refused};
use crate::outcomes::*;
use crate::places::Places;
use std::process::Abort;
use std::test::Fail;
use store::cursor::{Cursor, Within};
use store::memory::Memory;
use symbols::fault::Fault;
use symbols::table::SymbolTableType;
use symbols::table::SymbolTableType::{Class, Comprehension, Function};
use symbols::usage::SymbolUsage;

// Three tables, one in the other, the first in the module; and of each whether it is nested.
const NESTED: [[(SymbolTableType, bool); 3]; 6] = [
    [(Function, false), (Class, true), (Function, true)],
    [(Comprehension, false), (Function, false), (Class, true)],
    [(Class, false), (Function, false), (Comprehension, true)],
    [(Class, false), (Class, false), (Function, false)],
    [
        (Function, false),
        (Comprehension, true),
        (Comprehension, true),
    ],
    [
        (Comprehension, false),
        (Comprehension, false),
        (Class, false),
    ],
];

// Opens a table in the open one, and looks at its record.
fn opens(
    rt: &impl Abort,
    memory: &mut Memory<'_>,
    cursor: &mut Cursor<'_>,
    typ: SymbolTableType,
    nested: bool,
) -> Result<(), Fail> {
    let around = cursor.table;
    cursor.enter_scope(memory, typ, b"g", spot(5))?;
    let found = memory.tables.get(cursor.table).ok_or("no table")?;
    assert_eq!(rt; found.parent, Some(around));
    assert_eq!(rt; found.typ, typ);
    assert_eq!(rt; found.line_number, 105);
    assert_eq!(rt; found.name, 1);
    assert_eq!(rt; found.is_nested, nested);
    Ok(())
}

#[test]
fn nested(rt: HostRuntime) -> Result<(), Fail> {
    for tables in NESTED {
        let mut places = Places::new();
        let mut memory = places.memory();
        let table = open(&mut memory, &[])?;
        let mut cursor = Cursor { table, class: None };
        for (typ, nested) in tables {
            opens(&rt, &mut memory, &mut cursor, typ, nested)?;
        }
        assert_eq!(rt; cursor.table, 3);
        assert_eq!(rt; memory.counts().tables, 4);
        assert!(rt; memory.bytes.as_slice() == b"topg".as_slice());
    }
    Ok(())
}

#[test]
fn module(rt: HostRuntime) -> Result<(), Fail> {
    let mut places = Places::new();
    let mut memory = places.memory();
    assert_eq!(rt; open(&mut memory, &[])?, 0);
    let found = memory.tables.get(0).ok_or("no table")?;
    assert_eq!(rt; found.parent, None);
    assert_eq!(rt; found.typ, SymbolTableType::Module);
    assert_eq!(rt; found.line_number, 100);
    assert!(rt; !found.is_nested);
    Ok(())
}

// A class with a name in two roles, of which the second may be refused.
fn class(memory: &mut Memory<'_>, cursor: &mut Cursor<'_>, role: SymbolUsage) -> Result<(), Fault> {
    let table = cursor.table;
    let class = cursor.class;
    let within = Within {
        cursor,
        table,
        class,
    };
    within
        .cursor
        .enter_scope(memory, SymbolTableType::Class, b"C", spot(1))?;
    within.cursor.class = Some(b"C");
    let inner = within.cursor.table;
    memory.register_name(&inside(inner), b"x", SymbolUsage::Assigned, spot(2))?;
    memory.register_name(&inside(inner), b"x", role, spot(3))
}

// Accepted, refused after the table is open, and refused for want of a table: the cursor is back each time.
#[test]
fn back(rt: HostRuntime) -> Result<(), Fail> {
    let cases: [(usize, SymbolUsage, Outcome, usize); 3] = [
        (3, SymbolUsage::Used, Masks(0x003), 3),
        (3, SymbolUsage::Global, Refused(14), 3),
        (2, SymbolUsage::Used, Refused(22), 2),
    ];
    for (room, role, expected, tables) in cases {
        let mut places = Places::new();
        let mut memory = places.lent([room, 8, 8, 64], [0; 4]);
        let table = open(&mut memory, &[Function])?;
        let mut cursor = Cursor {
            table,
            class: Some(b"K"),
        };
        let result = class(&mut memory, &mut cursor, role);
        assert_eq!(rt; Outcome::of(&memory, result, 2, b"x"), expected);
        assert_eq!(rt; cursor.table, 1);
        assert_eq!(rt; cursor.class, Some(b"K".as_slice()));
        assert_eq!(rt; memory.counts().tables, tables);
    }
    Ok(())
}

// After the guard's end the next table stands beside the one before.
#[test]
fn beside(rt: HostRuntime) -> Result<(), Fail> {
    let mut places = Places::new();
    let mut memory = places.memory();
    let table = open(&mut memory, &[])?;
    let mut cursor = Cursor { table, class: None };
    class(&mut memory, &mut cursor, SymbolUsage::Used)?;
    class(&mut memory, &mut cursor, SymbolUsage::Used)?;
    let found = memory.tables.get(2).ok_or("no table")?;
    assert_eq!(rt; found.parent, Some(0));
    assert_eq!(rt; masks(&memory, 1, b"x"), Masks(0x003));
    assert_eq!(rt; masks(&memory, 2, b"x"), Masks(0x003));
    Ok(())
}
