// The kinds of nodes, by their numbers in the file.
ghost use Rattle.std.specs.Prelude.{◌≡◌, Some};
ghost use Rattle.treefile.specs.Kinds.{Numbered, expression, naming_of, number, statement};

// What a node is. The numbers are those of the file.
#[derive(Clone, Copy, Drop, PartialEq, Eq, Debug)]
pub(crate) enum Kind {
    Absent = 0,
    List = 1,
    Global = 16,
    Nonlocal = 17,
    FunctionDef = 18,
    ClassDef = 19,
    Expr = 20,
    If = 21,
    For = 22,
    While = 23,
    Plain = 24,
    Import = 25,
    ImportFrom = 26,
    Return = 27,
    Assert = 28,
    Delete = 29,
    Assign = 30,
    AugAssign = 31,
    AnnAssign = 32,
    With = 33,
    Try = 34,
    Raise = 35,
    Match = 36,
    TypeAlias = 37,
    Alias = 40,
    Id = 41,
    WithItem = 42,
    Handler = 43,
    Params = 44,
    Arg = 45,
    Generator = 46,
    Same = 64,
    Load = 65,
    Call = 66,
    Name = 67,
    Lambda = 68,
    NamedExpr = 69,
    Comprehension = 70,
}

// A number that is no kind's.
#[derive(Clone, Copy, Drop, PartialEq, Eq, Debug)]
pub(crate) struct UnknownKind(pub(crate) u8);

// Whether nodes of a kind have a name.
#[derive(Clone, Copy, Drop, PartialEq, Eq, Debug)]
pub(crate) enum Naming {
    Never,
    Always,
    Sometimes,
}

impl TryFrom<u8> for Kind {
    type Error = UnknownKind;

    ghost try_from_gives = { Numbered };

    #[inline(always)]
    fn try_from(number: u8) -> Result<Self, UnknownKind> {
        Ok(match number {
            0 => Kind::Absent,
            1 => Kind::List,
            16 => Kind::Global,
            17 => Kind::Nonlocal,
            18 => Kind::FunctionDef,
            19 => Kind::ClassDef,
            20 => Kind::Expr,
            21 => Kind::If,
            22 => Kind::For,
            23 => Kind::While,
            24 => Kind::Plain,
            25 => Kind::Import,
            26 => Kind::ImportFrom,
            27 => Kind::Return,
            28 => Kind::Assert,
            29 => Kind::Delete,
            30 => Kind::Assign,
            31 => Kind::AugAssign,
            32 => Kind::AnnAssign,
            33 => Kind::With,
            34 => Kind::Try,
            35 => Kind::Raise,
            36 => Kind::Match,
            37 => Kind::TypeAlias,
            40 => Kind::Alias,
            41 => Kind::Id,
            42 => Kind::WithItem,
            43 => Kind::Handler,
            44 => Kind::Params,
            45 => Kind::Arg,
            46 => Kind::Generator,
            64 => Kind::Same,
            65 => Kind::Load,
            66 => Kind::Call,
            67 => Kind::Name,
            68 => Kind::Lambda,
            69 => Kind::NamedExpr,
            70 => Kind::Comprehension,
            _ => return Err(UnknownKind(number)),
        })
    }
}

impl Kind {
    // Whether its nodes have a name.
    pub(crate) fn naming(self) -> Naming
        ensures { Some result ≡ naming_of (number self) }
    {
        match self {
            Kind::FunctionDef | Kind::ClassDef | Kind::Alias | Kind::Id | Kind::Arg | Kind::Name =>
                Naming::Always,
            Kind::ImportFrom | Kind::Handler => Naming::Sometimes,
            _ => Naming::Never,
        }
    }

    pub(crate) fn is_statement(self) -> bool
        ensures { result ≡ statement (number self) }
    {
        matches!(self as u8, 16..=37)
    }

    pub(crate) fn is_expression(self) -> bool
        ensures { result ≡ expression (number self) }
    {
        matches!(self as u8, 64..=70)
    }
}
