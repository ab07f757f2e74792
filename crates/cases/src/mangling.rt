// How a name is entered under a class name.
use crate::outcomes::Outcome::Masks;
use crate::outcomes::*;
use crate::places::Places;
use std::test::Fail;
use store::cursor::Cursor;
use store::mangle::mangle_name;
use symbols::table::SymbolTableType::{Comprehension, Function};
use symbols::usage::SymbolUsage;

// The class name in force, a name, and the text that is entered.
const ENTERED: [(&[u8], &[u8], &[u8]); 20] = [
    (b"A", b"__t", b"_A__t"),
    (b"_A", b"__t", b"_A__t"),
    (b"__A", b"__t", b"_A__t"),
    (b"___A", b"__t", b"_A__t"),
    (b"A_", b"__t", b"_A___t"),
    (b"_a_b", b"__t", b"_a_b__t"),
    (b"A", b"___t", b"_A___t"),
    (b"A", b"__t_", b"_A__t_"),
    (b"_", b"__t", b"__t"),
    (b"__", b"__t", b"__t"),
    (b"", b"__t", b"__t"),
    (b"A", b"___A__", b"___A__"),
    (b"A", b"__x__", b"__x__"),
    (b"A", b"__", b"__"),
    (b"A", b"___", b"___"),
    (b"A", b"_", b"_"),
    (b"A", b"_x", b"_x"),
    (b"A", b"x", b"x"),
    (b"A", b"x__y", b"x__y"),
    (b"A", b"__a.b", b"__a.b"),
];

// A function `f` in a module `top`, whose texts take four bytes.
#[test]
fn names(rt: HostRuntime) -> Result<(), Fail> {
    for (class, name, text) in ENTERED {
        let mut places = Places::new();
        let mut memory = places.memory();
        let table = open(&mut memory, &[Function])?;
        let within = Cursor {
            table,
            class: Some(class),
        };
        memory.register_name(&within, name, SymbolUsage::Assigned, spot(1))?;
        assert!(rt; memory.bytes.as_slice().strip_prefix(b"topf") == Some(text));
        assert_eq!(rt; masks(&memory, table, text), Masks(0x002));
        memory.register_name(&inside(table), text, SymbolUsage::Used, spot(2))?;
        assert_eq!(rt; masks(&memory, table, text), Masks(0x003));
        assert_eq!(rt; memory.counts().symbols, 1);
        assert_eq!(rt; memory.counts().texts, 3);
    }
    Ok(())
}

// Every way to enter a name mangles it.
#[test]
fn ways_to_enter(rt: HostRuntime) -> Result<(), Fail> {
    let mut places = Places::new();
    let mut memory = places.memory();
    let table = open(&mut memory, &[Function, Comprehension])?;
    let within = Cursor {
        table,
        class: Some(b"__A"),
    };
    memory.register_import(&within, b"__a", spot(1))?;
    memory.register_use(&within, b"__b", spot(2))?;
    memory.register_target(&within, b"__c", spot(3))?;
    assert_eq!(rt; masks(&memory, 2, b"_A__a"), Masks(0x012));
    assert_eq!(rt; masks(&memory, 2, b"_A__b"), Masks(0x001));
    assert_eq!(rt; masks(&memory, 2, b"_A__c"), Masks(0x042));
    assert_eq!(rt; masks(&memory, 1, b"_A__c"), Masks(0x002));
    assert_eq!(rt; memory.counts().symbols, 4);
    Ok(())
}

// The part of a class's name that goes before a name, which may outlive the name.
fn class_part<'c>(class: &'c [u8], name: &[u8]) -> &'c [u8] {
    mangle_name(class, name).prefix
}

// The class's part stays when the name is gone.
#[test]
fn part_outlives_the_name(rt: HostRuntime) {
    let private = {
        let name = [b'_', b'_', b't'];
        class_part(b"__A", &name)
    };
    let plain = {
        let name = [b't'];
        class_part(b"__A", &name)
    };
    assert!(rt; private == b"A".as_slice());
    assert!(rt; plain.is_empty());
}
