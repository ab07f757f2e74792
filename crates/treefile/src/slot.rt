// The slots of the kinds: which children a node has.
ghost use Rattle.std.specs.Prelude.{◌≡◌, map};
ghost use Rattle.treefile.specs.Kinds.{number};
ghost use Rattle.treefile.specs.Slots.{TableRule, asks_list, columns, element, letter, single};

use crate::kind::Kind;

// What a slot asks of the child that stands in it.
#[derive(Clone, Copy, Drop, PartialEq, Eq, Debug)]
pub(crate) enum Slot {
    Expression,
    // an expression or Absent
    MaybeExpression,
    // a List of expressions
    Expressions,
    // a List of statements
    Statements,
    // a List of Id
    Ids,
    // a List of Alias
    Aliases,
    // a List of WithItem
    WithItems,
    // a List of Handler
    Handlers,
    // a List of Arg
    Args,
    // Absent, or an Arg whose default is Absent
    MaybeBareArg,
    Params,
    // a List of Generator that is not empty
    Generators,
    // an Id or Absent
    MaybeId,
    // a Name: the target of a NamedExpr
    Name,
}

impl Slot {
    // Whether it asks for a List.
    pub(crate) fn asks_list(self) -> bool
        ensures { result ≡ asks_list (letter self) }
    {
        matches!(
            self,
            Slot::Expressions
                | Slot::Statements
                | Slot::Ids
                | Slot::Aliases
                | Slot::WithItems
                | Slot::Handlers
                | Slot::Args
                | Slot::Generators
        )
    }

    // Whether a kind may be an element of a List that stands in it.
    pub(crate) fn has_element(self, kind: Kind) -> bool
        ensures { result ≡ element (letter self) (number kind) }
    {
        match self {
            Slot::Expressions => kind.is_expression(),
            Slot::Statements => kind.is_statement(),
            Slot::Ids => kind == Kind::Id,
            Slot::Aliases => kind == Kind::Alias,
            Slot::WithItems => kind == Kind::WithItem,
            Slot::Handlers => kind == Kind::Handler,
            Slot::Args => kind == Kind::Arg,
            Slot::Generators => kind == Kind::Generator,
            _ => false,
        }
    }

    // Whether a kind may stand in it, where it asks for no List.
    pub(crate) fn has_single(self, kind: Kind) -> bool
        ensures { result ≡ single (letter self) (number kind) }
    {
        match self {
            Slot::Expression => kind.is_expression(),
            Slot::MaybeExpression => kind == Kind::Absent || kind.is_expression(),
            Slot::Params => kind == Kind::Params,
            Slot::MaybeId => matches!(kind, Kind::Absent | Kind::Id),
            Slot::Name => kind == Kind::Name,
            _ => false,
        }
    }
}

impl Kind {
    // The slots of its nodes, in the order of their children.
    #[tactic(auto, using(crate::proofs::Table::table_rule), unfolding(crate::specs::Slots::columns, crate::specs::Slots::table))]
    pub(crate) fn slots(self) -> &'static [Slot]
        ensures value { map letter result.now ≡ columns (number self) }
        ensures rule { TableRule }
    {
        use Slot::*;

        match self {
            Kind::Global | Kind::Nonlocal => &[Ids],
            Kind::FunctionDef => &[Expressions, MaybeExpression, Params, Statements],
            Kind::ClassDef => &[Statements, Expressions, Expressions, Expressions],
            Kind::Expr => &[Expression],
            Kind::If | Kind::While => &[Expression, Statements, Statements],
            Kind::For => &[Expression, Expression, Statements, Statements],
            Kind::Import | Kind::ImportFrom => &[Aliases],
            Kind::Return => &[MaybeExpression],
            Kind::Assert => &[Expression, MaybeExpression],
            Kind::Delete | Kind::Same | Kind::Load => &[Expressions],
            Kind::Assign => &[Expressions, Expression],
            Kind::AugAssign => &[Expression, Expression],
            Kind::AnnAssign => &[Expression, Expression, MaybeExpression],
            Kind::With => &[WithItems, Statements],
            Kind::Try => &[Statements, Handlers, Statements, Statements],
            Kind::Raise | Kind::Arg => &[MaybeExpression, MaybeExpression],
            Kind::Alias => &[MaybeId],
            Kind::WithItem => &[Expression, MaybeExpression],
            Kind::Handler => &[MaybeExpression, Statements],
            Kind::Params => &[Args, Args, Args, MaybeBareArg, MaybeBareArg],
            Kind::Generator => &[Expression, Expression, Expressions],
            Kind::Call => &[Expression, Expressions],
            Kind::Lambda => &[Params, Expression],
            Kind::NamedExpr => &[Name, Expression],
            Kind::Comprehension => &[Expression, MaybeExpression, Generators],
            Kind::Absent
            | Kind::List
            | Kind::Plain
            | Kind::Match
            | Kind::TypeAlias
            | Kind::Id
            | Kind::Name => &[],
        }
    }
}
