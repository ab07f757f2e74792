// Names and lines as they are printed.
use crate::escaped::Name;
use crate::lines::{FaultLine, NodeLine};
use std::test::Fail;

#[test]
fn names(rt: HostRuntime) -> Result<(), Fail> {
    let cases: [(Option<&[u8]>, &str); 6] = [
        (Some(b"self"), "self"),
        (Some(b"a b"), "a\\20b"),
        (Some(b"a\\b"), "a\\5cb"),
        (Some(b"!~\x7f"), "!~\\7f"),
        (Some(b"\xc3\xa9"), "\\c3\\a9"),
        (None, "-"),
    ];
    for (name, text) in cases {
        assert_eq!(rt; Name(name).to_string(rt.alloc())?.as_str(), text);
    }
    Ok(())
}

#[test]
fn whole_lines(rt: HostRuntime) -> Result<(), Fail> {
    let node = NodeLine {
        number: 12,
        depth: 3,
        word: "Name",
        name: Some(b"a b"),
        row: 7,
    };
    assert_eq!(rt; node.to_string(rt.alloc())?.as_str(), "12 3 Name a\\20b 7");
    let fault = FaultLine {
        number: 4,
        node: 17,
        row: 9,
    };
    assert_eq!(rt; fault.to_string(rt.alloc())?.as_str(), "R 4 17 9");
    Ok(())
}
