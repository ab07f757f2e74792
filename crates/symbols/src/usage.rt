// In which role a name is entered.
ghost use Rattle.std.specs.Prelude.{◌≡◌};
ghost use Rattle.symbols.specs.Usage.{masks_of, declares_global, scope_by};

use crate::flags::SymbolFlags;
use crate::scope::SymbolScope;

// The ten roles.
#[derive(Clone, Copy, Drop, PartialEq, Eq, Debug)]
pub enum SymbolUsage {
    Global,
    Nonlocal,
    Used,
    Assigned,
    Imported,
    AnnotationAssigned,
    Parameter,
    AnnotationParameter,
    AssignedNamedExprInComprehension,
    Iter,
}

impl SymbolUsage {
    // The masks that the role sets.
    pub fn flags(self) -> SymbolFlags
        ensures { result ≡ record { bits = masks_of self } }
    {
        match self {
            SymbolUsage::Global => SymbolFlags::EMPTY,
            SymbolUsage::Nonlocal => SymbolFlags::NONLOCAL,
            SymbolUsage::Used => SymbolFlags::REFERENCED,
            SymbolUsage::Assigned => SymbolFlags::ASSIGNED,
            SymbolUsage::Imported => SymbolFlags::ASSIGNED | SymbolFlags::IMPORTED,
            SymbolUsage::AnnotationAssigned => SymbolFlags::ASSIGNED | SymbolFlags::ANNOTATED,
            SymbolUsage::Parameter => SymbolFlags::PARAMETER,
            SymbolUsage::AnnotationParameter => SymbolFlags::PARAMETER | SymbolFlags::ANNOTATED,
            SymbolUsage::AssignedNamedExprInComprehension => {
                SymbolFlags::ASSIGNED | SymbolFlags::ASSIGNED_IN_COMPREHENSION
            }
            SymbolUsage::Iter => SymbolFlags::ITER,
        }
    }

    // Whether the role declares the name global.
    pub fn is_global(self) -> bool
        ensures { result ≡ declares_global self }
    {
        self == SymbolUsage::Global
    }

    // The scope of a name after the role, where it was `old` before.
    pub fn scope(self, old: SymbolScope) -> SymbolScope
        ensures { result ≡ scope_by self old }
    {
        match self {
            SymbolUsage::Global => SymbolScope::GlobalExplicit,
            SymbolUsage::Nonlocal => SymbolScope::Free,
            _ => old,
        }
    }
}
