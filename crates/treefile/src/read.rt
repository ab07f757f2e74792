// What a node shows.
ghost use Rattle.std.specs.Prelude.{◌≡◌, ◌<◌, if◌then◌else◌, Some, None, nat_lt};
ghost use Rattle.std.specs.Option.{option_map};
ghost use Rattle.treefile.specs.Kinds.{number};
ghost use Rattle.treefile.specs.Records.{form_at, kind_at, name_number};
ghost use Rattle.treefile.specs.Shown.{after_place, held, maybe_name, name_or, node_at, places_after, said_by, said_of, shown};

use crate::areas::Areas;
use crate::kind::Kind;
use crate::node::{Case, Node, Places};
use crate::record::Record;
use crate::tree::Tree;

impl<'a> Areas<'a> {
    // A name by its number, as a part of the file; nothing for a number that is no name's.
    fn name(&self, n: usize) -> &'a [u8]
        ensures { result.now ≡ name_or self.now.file.now self.now.trailer n }
    {
        if n >= self.trailer.name_count {
            return &self.file[0..0];
        }
        self.name_bytes(n)
    }

    // The place after the node at a place.
    fn after(&self, at: usize) -> usize
        ensures { result ≡ after_place self.now.file.now self.now.trailer at }
    {
        if at >= self.trailer.record_count {
            return at;
        }
        at + Record { of: self, at }.size()
    }
}

impl<'t, 'a> Record<'t, 'a> {
    // Its name, as a part of the file; nothing where its number is no name's.
    fn name(&self) -> &'a [u8]
        ensures { result.now ≡ name_or self.now.of.now.file.now self.now.of.now.trailer (name_number self.now.of.now.file.now self.now.of.now.trailer self.now.at) }
    {
        self.maybe_name().unwrap_or_default()
    }

    // Its name, if it has one.
    fn maybe_name(&self) -> Option<&'a [u8]>
        ensures { held result ≡ maybe_name self.now.of.now.file.now self.now.of.now.trailer (name_number self.now.of.now.file.now self.now.of.now.trailer self.now.at) }
    {
        let n = self.name_number()?;
        Some(self.of.name(n))
    }

    // The places after its node.
    fn places_after(&self) -> Places
        ensures { result ≡ places_after self.now.of.now.file.now self.now.of.now.trailer self.now.at }
    {
        let first = self.at + 1;
        let second = self.of.after(first);
        let third = self.of.after(second);
        let fourth = self.of.after(third);
        let fifth = self.of.after(fourth);
        let end = self.of.after(self.at);
        Places {
            first,
            second,
            third,
            fourth,
            fifth,
            end,
        }
    }

    // The case of a kind, with its form and name and these places.
    fn case_of(&self, kind: Kind, at: Places) -> Case<'a>
        ensures { said_by result ≡ said_of self.now.of.now.file.now self.now.of.now.trailer (number kind) (form_at self.now.of.now.file.now self.now.of.now.trailer self.now.at) (name_number self.now.of.now.file.now self.now.of.now.trailer self.now.at) at }
    {
        match kind {
            Kind::Absent => Case::Absent,
            Kind::List => Case::List {
                first: at.first,
                end: at.end,
            },
            Kind::Global => Case::Global { names: at.first },
            Kind::Nonlocal => Case::Nonlocal { names: at.first },
            Kind::FunctionDef => Case::FunctionDef {
                name: self.name(),
                decorator_list: at.first,
                returns: at.second,
                args: at.third,
                body: at.fourth,
            },
            Kind::ClassDef => Case::ClassDef {
                name: self.name(),
                body: at.first,
                bases: at.second,
                keywords: at.third,
                decorator_list: at.fourth,
            },
            Kind::Expr => Case::Expr { value: at.first },
            Kind::If => Case::If {
                test: at.first,
                body: at.second,
                orelse: at.third,
            },
            Kind::For => Case::For {
                target: at.first,
                iter: at.second,
                body: at.third,
                orelse: at.fourth,
            },
            Kind::While => Case::While {
                test: at.first,
                body: at.second,
                orelse: at.third,
            },
            Kind::Plain => Case::Plain,
            Kind::Import => Case::Import { names: at.first },
            Kind::ImportFrom => Case::ImportFrom {
                module: self.maybe_name(),
                names: at.first,
            },
            Kind::Return => Case::Return { value: at.first },
            Kind::Assert => Case::Assert {
                test: at.first,
                msg: at.second,
            },
            Kind::Delete => Case::Delete { targets: at.first },
            Kind::Assign => Case::Assign {
                targets: at.first,
                value: at.second,
            },
            Kind::AugAssign => Case::AugAssign {
                target: at.first,
                value: at.second,
            },
            Kind::AnnAssign => Case::AnnAssign {
                simple: self.form() == 1,
                target: at.first,
                annotation: at.second,
                value: at.third,
            },
            Kind::With => Case::With {
                items: at.first,
                body: at.second,
            },
            Kind::Try => Case::Try {
                body: at.first,
                handlers: at.second,
                orelse: at.third,
                finalbody: at.fourth,
            },
            Kind::Raise => Case::Raise {
                exc: at.first,
                cause: at.second,
            },
            Kind::Match => Case::Match,
            Kind::TypeAlias => Case::TypeAlias,
            Kind::Alias => Case::Alias {
                name: self.name(),
                asname: at.first,
            },
            Kind::Id => Case::Id { name: self.name() },
            Kind::WithItem => Case::WithItem {
                context_expr: at.first,
                optional_vars: at.second,
            },
            Kind::Handler => Case::Handler {
                name: self.maybe_name(),
                exc_type: at.first,
                body: at.second,
            },
            Kind::Params => Case::Params {
                posonlyargs: at.first,
                args: at.second,
                kwonlyargs: at.third,
                vararg: at.fourth,
                kwarg: at.fifth,
            },
            Kind::Arg => Case::Arg {
                name: self.name(),
                annotation: at.first,
                default: at.second,
            },
            Kind::Generator => Case::Generator {
                target: at.first,
                iter: at.second,
                ifs: at.third,
            },
            Kind::Same => Case::Same { values: at.first },
            Kind::Load => Case::Load { values: at.first },
            Kind::Call => Case::Call {
                func: at.first,
                args: at.second,
            },
            Kind::Name => Case::Name { name: self.name() },
            Kind::Lambda => Case::Lambda {
                args: at.first,
                body: at.second,
            },
            Kind::NamedExpr => Case::NamedExpr {
                target: at.first,
                value: at.second,
            },
            Kind::Comprehension => Case::Comprehension {
                element: at.first,
                second: at.second,
                generators: at.third,
            },
        }
    }
}

impl<'a> Tree<'a> {
    // A node that is known to be there.
    fn node_at(&self, i: usize) -> Node<'a>
        requires { i < self.now.areas.trailer.record_count }
        ensures { shown result ≡ node_at self.now.areas.file.now self.now.areas.trailer i }
    {
        let record = Record {
            of: &self.areas,
            at: i,
        };
        let places = record.places_after();
        let Some(kind) = record.kind() else {
            unreachable()
        };
        Node {
            case: record.case_of(kind, places),
            row: record.row(),
        }
    }

    // A node by its number in preorder, from 0; none where the tree has no such node.
    pub fn node(&self, i: usize) -> Option<Node<'a>>
        ensures { option_map shown result ≡ (if nat_lt i self.now.areas.trailer.record_count then Some (node_at self.now.areas.file.now self.now.areas.trailer i) else None) }
    {
        if i >= self.areas.trailer.record_count {
            return None;
        }
        Some(self.node_at(i))
    }
}
