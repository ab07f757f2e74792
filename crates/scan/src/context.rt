// How an expression is scanned.
ghost use Rattle.std.specs.Prelude.{◌≡◌};
ghost use Rattle.scan.specs.Readings.{keep_iterable};

// What is done with the value of an expression, or with the names in it.
#[derive(Clone, Copy, Drop, PartialEq, Eq, Debug)]
pub enum ExpressionContext {
    // it is read
    Load,
    // it is assigned
    Store,
    // it is deleted
    Delete,
    // it is the target of a `for` in a comprehension
    Iter,
    // it is the iterable of a `for` in a comprehension
    IterDefinitionExp,
}

impl ExpressionContext {
    // The context of what a call calls and of what a lambda gives: an iterable's stays one, in any other they are read.
    pub fn of_result(self) -> ExpressionContext
        ensures { result ≡ keep_iterable self }
    {
        match self {
            ExpressionContext::IterDefinitionExp => ExpressionContext::IterDefinitionExp,
            _ => ExpressionContext::Load,
        }
    }
}

// What goes down to an expression from around it. `inside` says that it stands somewhere in the iterable of a
// comprehension, and `deferred` that annotations are not looked at.
#[derive(Clone, Copy, Drop)]
pub struct Setting {
    pub context: ExpressionContext,
    pub inside: bool,
    pub deferred: bool,
}
