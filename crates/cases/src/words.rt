// Words of scopes and kinds, and what a scope and masks say of a name.
use std::test::Fail;
use symbols::fault::Spot;
use symbols::flags::SymbolFlags;
use symbols::scope::SymbolScope;
use symbols::symbol::Symbol;
use symbols::table::SymbolTableType;

fn with(scope: SymbolScope, bits: u16) -> Symbol {
    Symbol {
        table: 0,
        name: 0,
        scope,
        flags: SymbolFlags { bits },
        global: false,
        spot: Spot { node: 0, row: 0 },
    }
}

// A scope, its word as it is and printed, and whether a name that has it is global, and local.
#[test]
fn scopes(rt: HostRuntime) -> Result<(), Fail> {
    let cases: [(SymbolScope, &str, bool, bool); 6] = [
        (SymbolScope::Unknown, "Unknown", false, false),
        (SymbolScope::Local, "Local", false, true),
        (SymbolScope::GlobalExplicit, "GlobalExplicit", true, false),
        (SymbolScope::GlobalImplicit, "GlobalImplicit", true, false),
        (SymbolScope::Free, "Free", false, false),
        (SymbolScope::Cell, "Cell", false, true),
    ];
    for (scope, word, global, local) in cases {
        assert_eq!(rt; scope.word(), word);
        assert_eq!(rt; with(scope, 0).is_global(), global);
        assert_eq!(rt; with(scope, 0).is_local(), local);
        assert_eq!(rt; scope.to_string(rt.alloc())?.as_str(), word);
    }
    Ok(())
}

// The masks by name, as a listing prints them.
#[test]
fn masks(rt: HostRuntime) {
    let cases: [(SymbolFlags, u16); 11] = [
        (SymbolFlags::EMPTY, 0x000),
        (SymbolFlags::REFERENCED, 0x001),
        (SymbolFlags::ASSIGNED, 0x002),
        (SymbolFlags::PARAMETER, 0x004),
        (SymbolFlags::ANNOTATED, 0x008),
        (SymbolFlags::IMPORTED, 0x010),
        (SymbolFlags::NONLOCAL, 0x020),
        (SymbolFlags::ASSIGNED_IN_COMPREHENSION, 0x040),
        (SymbolFlags::ITER, 0x080),
        (SymbolFlags::FREE_CLASS, 0x100),
        (SymbolFlags::BOUND, 0x096),
    ];
    for (flags, bits) in cases {
        assert_eq!(rt; flags.bits, bits);
    }
}

// Masks, and whether they bind a name.
#[test]
fn bound(rt: HostRuntime) {
    let cases: [(u16, bool); 12] = [
        (0x000, false),
        (0x001, false),
        (0x002, true),
        (0x004, true),
        (0x008, false),
        (0x010, true),
        (0x020, false),
        (0x040, false),
        (0x080, true),
        (0x100, false),
        (0x169, false),
        (0x042, true),
    ];
    for (bits, expected) in cases {
        assert_eq!(rt; with(SymbolScope::Unknown, bits).is_bound(), expected);
    }
}

#[test]
fn kinds(rt: HostRuntime) -> Result<(), Fail> {
    let cases: [(SymbolTableType, &str); 4] = [
        (SymbolTableType::Module, "Module"),
        (SymbolTableType::Class, "Class"),
        (SymbolTableType::Function, "Function"),
        (SymbolTableType::Comprehension, "Comprehension"),
    ];
    for (kind, word) in cases {
        assert_eq!(rt; kind.word(), word);
        assert_eq!(rt; kind.to_string(rt.alloc())?.as_str(), word);
    }
    Ok(())
}
