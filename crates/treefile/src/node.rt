// A node of a checked tree.

// The places after a node, as many as a kind may have slots, and its end.
#[derive(Clone, Copy, Drop)]
pub(crate) struct Places {
    pub(crate) first: usize,
    pub(crate) second: usize,
    pub(crate) third: usize,
    pub(crate) fourth: usize,
    pub(crate) fifth: usize,
    pub(crate) end: usize,
}

// A node: what it is, and the row of the script that it stands in.
#[derive(Clone, Copy, Drop)]
pub struct Node<'a> {
    pub case: Case<'a>,
    pub row: u32,
}

// The cases of a node. A name is a part of the file; every other field of a case is the place of a child, by the name that the
// child has in Python's syntax tree. The elements of a List stand one after the other from its first place to its end.
#[derive(Clone, Copy, Drop)]
pub enum Case<'a> {
    Absent,
    List {
        first: usize,
        end: usize,
    },
    Global {
        names: usize,
    },
    Nonlocal {
        names: usize,
    },
    FunctionDef {
        name: &'a [u8],
        decorator_list: usize,
        returns: usize,
        args: usize,
        body: usize,
    },
    ClassDef {
        name: &'a [u8],
        body: usize,
        bases: usize,
        keywords: usize,
        decorator_list: usize,
    },
    Expr {
        value: usize,
    },
    If {
        test: usize,
        body: usize,
        orelse: usize,
    },
    For {
        target: usize,
        iter: usize,
        body: usize,
        orelse: usize,
    },
    While {
        test: usize,
        body: usize,
        orelse: usize,
    },
    Plain,
    Import {
        names: usize,
    },
    ImportFrom {
        module: Option<&'a [u8]>,
        names: usize,
    },
    Return {
        value: usize,
    },
    Assert {
        test: usize,
        msg: usize,
    },
    Delete {
        targets: usize,
    },
    Assign {
        targets: usize,
        value: usize,
    },
    AugAssign {
        target: usize,
        value: usize,
    },
    AnnAssign {
        simple: bool,
        target: usize,
        annotation: usize,
        value: usize,
    },
    With {
        items: usize,
        body: usize,
    },
    Try {
        body: usize,
        handlers: usize,
        orelse: usize,
        finalbody: usize,
    },
    Raise {
        exc: usize,
        cause: usize,
    },
    Match,
    TypeAlias,
    Alias {
        name: &'a [u8],
        asname: usize,
    },
    Id {
        name: &'a [u8],
    },
    WithItem {
        context_expr: usize,
        optional_vars: usize,
    },
    Handler {
        name: Option<&'a [u8]>,
        exc_type: usize,
        body: usize,
    },
    Params {
        posonlyargs: usize,
        args: usize,
        kwonlyargs: usize,
        vararg: usize,
        kwarg: usize,
    },
    Arg {
        name: &'a [u8],
        annotation: usize,
        default: usize,
    },
    Generator {
        target: usize,
        iter: usize,
        ifs: usize,
    },
    Same {
        values: usize,
    },
    Load {
        values: usize,
    },
    Call {
        func: usize,
        args: usize,
    },
    Name {
        name: &'a [u8],
    },
    Lambda {
        args: usize,
        body: usize,
    },
    NamedExpr {
        target: usize,
        value: usize,
    },
    Comprehension {
        element: usize,
        second: usize,
        generators: usize,
    },
}
