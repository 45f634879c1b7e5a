//! Classes of kinds.

ghost use Rattle.std.specs.Prelude.{◌≡◌};
ghost use Rattle.node_tree.specs.Kinds.{is_expression, is_term, is_statement, is_literal, is_function};

use crate::kind::Kind;

impl Kind {
    /// Whether a node of this kind is an expression.
    pub fn is_expression(self) -> bool
        ensures { result ≡ is_expression self }
    {
        match self {
            Kind::Name => true,
            Kind::Number => true,
            Kind::Str => true,
            Kind::StrJoin => true,
            Kind::FStr => true,
            Kind::Char => true,
            Kind::Const => true,
            Kind::Ellipsis => true,
            Kind::Tuple => true,
            Kind::ListLit => true,
            Kind::SetLit => true,
            Kind::DictLit => true,
            Kind::Comp => true,
            Kind::Attr => true,
            Kind::Sub => true,
            Kind::Call => true,
            Kind::Await => true,
            Kind::Yield => true,
            Kind::YieldFrom => true,
            Kind::Unary => true,
            Kind::Postfix => true,
            Kind::Binary => true,
            Kind::Compare => true,
            Kind::Cond => true,
            Kind::Lambda => true,
            Kind::Walrus => true,
            Kind::AssignE => true,
            Kind::Cast => true,
            Kind::SizeofType => true,
            Kind::InitList => true,
            Kind::Array => true,
            Kind::Object => true,
            _ => false,
        }
    }

    /// Whether a node of this kind is an expression, a name that is none, or a type.
    pub fn is_term(self) -> bool
        ensures { result ≡ is_term self }
    {
        match self {
            Kind::Id => true,
            Kind::TypeSpec => true,
            kind => kind.is_expression(),
        }
    }

    /// Whether a node of this kind is a statement.
    pub fn is_statement(self) -> bool
        ensures { result ≡ is_statement self }
    {
        match self {
            Kind::ExprStmt => true,
            Kind::Assign => true,
            Kind::AugAssign => true,
            Kind::AnnAssign => true,
            Kind::Return => true,
            Kind::Del => true,
            Kind::Pass => true,
            Kind::Break => true,
            Kind::Continue => true,
            Kind::Raise => true,
            Kind::Global => true,
            Kind::Nonlocal => true,
            Kind::Assert => true,
            Kind::Import => true,
            Kind::FromImport => true,
            Kind::If => true,
            Kind::While => true,
            Kind::For => true,
            Kind::Try => true,
            Kind::With => true,
            Kind::FunctionDef => true,
            Kind::ClassDef => true,
            Kind::Directive => true,
            Kind::FuncDef => true,
            Kind::Decl => true,
            Kind::Empty => true,
            Kind::DoWhile => true,
            Kind::ForC => true,
            Kind::Goto => true,
            Kind::Label => true,
            Kind::Switch => true,
            Kind::Case => true,
            Kind::Default => true,
            _ => false,
        }
    }

    /// Whether a node of this kind is a literal that a name may be known to hold.
    pub fn is_literal(self) -> bool
        ensures { result ≡ is_literal self }
    {
        match self {
            Kind::Str => true,
            Kind::Number => true,
            Kind::Const => true,
            _ => false,
        }
    }

    /// Whether a node of this kind defines a function. Its last kid is the function's body.
    pub fn is_function(self) -> bool
        ensures { result ≡ is_function self }
    {
        match self {
            Kind::FunctionDef => true,
            Kind::FuncDef => true,
            _ => false,
        }
    }
}
