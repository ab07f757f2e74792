// What a case says of itself.
ghost use Rattle.std.specs.Prelude.{◌≡◌, Some, None};
ghost use Rattle.treefile.specs.KindWords.{kind_word};
ghost use Rattle.treefile.specs.Shown.{held, said_by};

use super::node::Case;

impl<'a> Case<'a> {
    // The word of its kind.
    pub fn word(&self) -> &'static str
        ensures { result.now ≡ kind_word (said_by self.now).kind }
    {
        match self {
            Case::Absent => "Absent",
            Case::List { .. } => "List",
            Case::Global { .. } => "Global",
            Case::Nonlocal { .. } => "Nonlocal",
            Case::FunctionDef { .. } => "FunctionDef",
            Case::ClassDef { .. } => "ClassDef",
            Case::Expr { .. } => "Expr",
            Case::If { .. } => "If",
            Case::For { .. } => "For",
            Case::While { .. } => "While",
            Case::Plain => "Plain",
            Case::Import { .. } => "Import",
            Case::ImportFrom { .. } => "ImportFrom",
            Case::Return { .. } => "Return",
            Case::Assert { .. } => "Assert",
            Case::Delete { .. } => "Delete",
            Case::Assign { .. } => "Assign",
            Case::AugAssign { .. } => "AugAssign",
            Case::AnnAssign { .. } => "AnnAssign",
            Case::With { .. } => "With",
            Case::Try { .. } => "Try",
            Case::Raise { .. } => "Raise",
            Case::Match => "Match",
            Case::TypeAlias => "TypeAlias",
            Case::Alias { .. } => "Alias",
            Case::Id { .. } => "Id",
            Case::WithItem { .. } => "WithItem",
            Case::Handler { .. } => "Handler",
            Case::Params { .. } => "Params",
            Case::Arg { .. } => "Arg",
            Case::Generator { .. } => "Generator",
            Case::Same { .. } => "Same",
            Case::Load { .. } => "Load",
            Case::Call { .. } => "Call",
            Case::Name { .. } => "Name",
            Case::Lambda { .. } => "Lambda",
            Case::NamedExpr { .. } => "NamedExpr",
            Case::Comprehension { .. } => "Comprehension",
        }
    }

    // Its name, if it has one.
    pub fn name(&self) -> Option<&'a [u8]>
        ensures { held result ≡ (said_by self.now).name }
    {
        match self {
            Case::FunctionDef { name, .. } => Some(*name),
            Case::ClassDef { name, .. } => Some(*name),
            Case::ImportFrom { module, .. } => *module,
            Case::Alias { name, .. } => Some(*name),
            Case::Id { name } => Some(*name),
            Case::Handler { name, .. } => *name,
            Case::Arg { name, .. } => Some(*name),
            Case::Name { name } => Some(*name),
            _ => None,
        }
    }
}
