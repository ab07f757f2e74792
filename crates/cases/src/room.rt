// Memory that is one place short.
use crate::outcomes::Outcome::Masks;
use crate::outcomes::*;
use crate::places::{Places, in_use};
use std::process::Abort;
use std::test::Fail;
use store::memory::Memory;
use symbols::fault::Fault;
use symbols::table::SymbolTableType::{Class, Function};
use symbols::usage::SymbolUsage;

// Places for tables, symbols, texts and text bytes, of which a function `f` in a module `top` takes 2, 0, 2 and 4; a
// name; and what is answered, with the number of the fault. The new name `ab` takes one text and two bytes, the name `f`
// none.
type Case = ([usize; 4], &'static [u8], Result<(), u8>);

const NAMES: [Case; 9] = [
    ([2, 1, 3, 6], b"ab", Ok(())),
    ([2, 1, 2, 6], b"ab", Err(24)),
    ([2, 1, 3, 5], b"ab", Err(24)),
    ([2, 0, 3, 6], b"ab", Err(23)),
    ([2, 0, 2, 6], b"ab", Err(24)),
    ([2, 0, 3, 5], b"ab", Err(24)),
    ([2, 0, 2, 4], b"ab", Err(24)),
    ([2, 1, 2, 4], b"f", Ok(())),
    ([2, 0, 2, 4], b"f", Err(23)),
];

const TABLES: [Case; 9] = [
    ([3, 0, 3, 6], b"ab", Ok(())),
    ([3, 0, 2, 6], b"ab", Err(24)),
    ([3, 0, 3, 5], b"ab", Err(24)),
    ([2, 0, 3, 6], b"ab", Err(22)),
    ([2, 0, 2, 6], b"ab", Err(24)),
    ([2, 0, 3, 5], b"ab", Err(24)),
    ([2, 0, 2, 4], b"ab", Err(24)),
    ([3, 0, 2, 4], b"f", Ok(())),
    ([2, 0, 2, 4], b"f", Err(22)),
];

// A name in table 1.
fn enter_name(memory: &mut Memory<'_>, name: &[u8]) -> Result<(), Fault> {
    memory.register_name(&inside(1), name, SymbolUsage::Used, spot(1))
}

// A table in table 1.
fn enter_table(memory: &mut Memory<'_>, name: &[u8]) -> Result<(), Fault> {
    memory.add_table(Some(1), Class, name, spot(1))?;
    Ok(())
}

// What is answered, with the number of the fault.
fn answer<T>(res: Result<T, Fault>) -> Result<T, u8> {
    res.map_err(|fault| fault.number())
}

// A refusal leaves the counts, and the same entering is accepted where there is more room.
fn short<F: Fn(&mut Memory<'_>, &[u8]) -> Result<(), Fault>>(
    rt: &impl Abort,
    enter: F,
    case: Case,
) -> Result<(), Fail>
    requires { F.IsAlwaysCallable enter }
{
    let (room, name, expected) = case;
    let mut places = Places::new();
    let mut memory = places.lent(room, [0; 4]);
    open(&mut memory, &[Function])?;
    assert_eq!(rt; answer(enter(&mut memory, name)), expected);
    if expected.is_err() {
        assert_eq!(rt; in_use(&memory), [2, 0, 2, 4]);
        let mut more = places.lent([3, 1, 3, 6], [2, 0, 2, 4]);
        assert_eq!(rt; answer(enter(&mut more, name)), Ok(()));
    }
    Ok(())
}

#[test]
fn names(rt: HostRuntime) -> Result<(), Fail> {
    for case in NAMES {
        short(&rt, enter_name, case)?;
    }
    Ok(())
}

#[test]
fn tables(rt: HostRuntime) -> Result<(), Fail> {
    for case in TABLES {
        short(&rt, enter_table, case)?;
    }
    Ok(())
}

// What the script has wrong comes before a lack of memory; a name that is there needs none.
#[test]
fn script_before_memory(rt: HostRuntime) -> Result<(), Fail> {
    let mut places = Places::new();
    let mut memory = places.lent([2, 1, 2, 4], [0; 4]);
    open(&mut memory, &[Function])?;
    let new = memory.register_name(&inside(0), b"x", SymbolUsage::Nonlocal, spot(1));
    assert_eq!(rt; answer(new), Err(15));
    let inner = memory.register_import(&inside(1), b"*", spot(2));
    assert_eq!(rt; answer(inner), Err(20));
    let outer = memory.register_import(&inside(0), b"*", spot(3));
    assert_eq!(rt; answer(outer), Err(24));
    assert_eq!(rt; in_use(&memory), [2, 0, 2, 4]);
    memory.register_name(&inside(1), b"f", SymbolUsage::Used, spot(4))?;
    memory.register_name(&inside(1), b"f", SymbolUsage::Assigned, spot(5))?;
    assert_eq!(rt; masks(&memory, 1, b"f"), Masks(0x003));
    assert_eq!(rt; in_use(&memory), [2, 1, 2, 4]);
    Ok(())
}

// The module too needs a text and a table.
#[test]
fn no_module(rt: HostRuntime) {
    let cases: [([usize; 4], Result<usize, u8>); 4] = [
        ([1, 0, 1, 3], Ok(0)),
        ([0, 0, 1, 3], Err(22)),
        ([0, 0, 0, 3], Err(24)),
        ([0, 0, 1, 2], Err(24)),
    ];
    for (room, expected) in cases {
        let mut places = Places::new();
        let mut memory = places.lent(room, [0; 4]);
        assert_eq!(rt; answer(open(&mut memory, &[])), expected);
        if expected.is_err() {
            assert_eq!(rt; in_use(&memory), [0; 4]);
        }
    }
}
