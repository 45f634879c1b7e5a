//! What a node stands for.

ghost use Rattle.std.specs.Prelude.{◌≡◌, ◌≢◌, ◌↔◌, IsTrue, MatchOption, slice_get};
ghost use Rattle.node_tree.specs.declared.kind.Kind.{Kind as kind};
ghost use Rattle.node_tree.specs.Tree.{content_kind};
ghost use Rattle.node_tree.specs.Order.{kind_place};

/// What a node stands for, for all languages together. Kinds compare in the order in which they stand here.
#[derive(Clone, Copy, Debug, PartialEq, Eq)]
pub enum Kind {
    // Expressions.
    Name,
    Number,
    Str,
    StrJoin,
    FStr,
    Char,
    Const,
    Ellipsis,
    Tuple,
    ListLit,
    SetLit,
    DictLit,
    Comp,
    Attr,
    Sub,
    Call,
    Await,
    Yield,
    YieldFrom,
    Unary,
    Postfix,
    Binary,
    Compare,
    Cond,
    Lambda,
    Walrus,
    AssignE,
    Cast,
    SizeofType,
    InitList,
    Array,
    Object,

    // Names that are no expression, and types.
    Id,
    TypeSpec,

    // Statements.
    ExprStmt,
    Assign,
    AugAssign,
    AnnAssign,
    Return,
    Del,
    Pass,
    Break,
    Continue,
    Raise,
    Global,
    Nonlocal,
    Assert,
    Import,
    FromImport,
    If,
    While,
    For,
    Try,
    With,
    FunctionDef,
    ClassDef,
    Directive,
    FuncDef,
    Decl,
    Empty,
    DoWhile,
    ForC,
    Goto,
    Label,
    Switch,
    Case,
    Default,

    // Parts of the others.
    Root,
    Block,
    List,
    Absent,
    Pair,
    Member,
    Keyword,
    Star,
    Star2,
    Slice,
    Param,
    ParamC,
    CompFor,
    CompIf,
    FText,
    FField,
    Alias,
    Handler,
    WithItem,
    Var,
    Ptr,
    ArrayOf,
    FuncOf,
    TypeName,
    Fields,
    EnumItems,
    EnumItem,
    Designated,
    DesField,
    DesIndex,

    // What patterns alone have.
    Meta,
    MetaDots,
    Dots,
    Deep,
    StrAny,
}

// All kinds in order.
const ALL: [Kind; 102] = [
    Kind::Name,
    Kind::Number,
    Kind::Str,
    Kind::StrJoin,
    Kind::FStr,
    Kind::Char,
    Kind::Const,
    Kind::Ellipsis,
    Kind::Tuple,
    Kind::ListLit,
    Kind::SetLit,
    Kind::DictLit,
    Kind::Comp,
    Kind::Attr,
    Kind::Sub,
    Kind::Call,
    Kind::Await,
    Kind::Yield,
    Kind::YieldFrom,
    Kind::Unary,
    Kind::Postfix,
    Kind::Binary,
    Kind::Compare,
    Kind::Cond,
    Kind::Lambda,
    Kind::Walrus,
    Kind::AssignE,
    Kind::Cast,
    Kind::SizeofType,
    Kind::InitList,
    Kind::Array,
    Kind::Object,
    Kind::Id,
    Kind::TypeSpec,
    Kind::ExprStmt,
    Kind::Assign,
    Kind::AugAssign,
    Kind::AnnAssign,
    Kind::Return,
    Kind::Del,
    Kind::Pass,
    Kind::Break,
    Kind::Continue,
    Kind::Raise,
    Kind::Global,
    Kind::Nonlocal,
    Kind::Assert,
    Kind::Import,
    Kind::FromImport,
    Kind::If,
    Kind::While,
    Kind::For,
    Kind::Try,
    Kind::With,
    Kind::FunctionDef,
    Kind::ClassDef,
    Kind::Directive,
    Kind::FuncDef,
    Kind::Decl,
    Kind::Empty,
    Kind::DoWhile,
    Kind::ForC,
    Kind::Goto,
    Kind::Label,
    Kind::Switch,
    Kind::Case,
    Kind::Default,
    Kind::Root,
    Kind::Block,
    Kind::List,
    Kind::Absent,
    Kind::Pair,
    Kind::Member,
    Kind::Keyword,
    Kind::Star,
    Kind::Star2,
    Kind::Slice,
    Kind::Param,
    Kind::ParamC,
    Kind::CompFor,
    Kind::CompIf,
    Kind::FText,
    Kind::FField,
    Kind::Alias,
    Kind::Handler,
    Kind::WithItem,
    Kind::Var,
    Kind::Ptr,
    Kind::ArrayOf,
    Kind::FuncOf,
    Kind::TypeName,
    Kind::Fields,
    Kind::EnumItems,
    Kind::EnumItem,
    Kind::Designated,
    Kind::DesField,
    Kind::DesIndex,
    Kind::Meta,
    Kind::MetaDots,
    Kind::Dots,
    Kind::Deep,
    Kind::StrAny,
];

// The kind at that place in a list of kinds.
fn kind_in(kinds: &[Kind], place: u8) -> Option<Kind>
    ensures { result ≡ slice_get kinds.now place }
{
    kinds.get(place as usize).copied()
}

impl Kind {
    /// The place of the kind in the order of kinds, from 0.
    pub fn place(self) -> u8
        ensures { result ≡ kind_place self }
    {
        self as u8
    }

    /// The kind with that place in the order of kinds, where there is one.
    pub fn at_place(place: u8) -> Option<Kind>
        ensures { MatchOption result ((k : kind) → kind_place k ≢ place) (λ k. kind_place k ≡ place) }
    {
        kind_in(&ALL, place)
    }

    /// The kind that counts for the content of a node: `Id` counts as `Name`.
    pub fn content(self) -> Kind
        ensures { result ≡ content_kind self }
    {
        match self {
            Kind::Id => Kind::Name,
            kind => kind,
        }
    }

    /// The same kind, where `Id` counts as `Name`.
    pub fn is_same(self, other: Kind) -> bool
        ensures { IsTrue result ↔ (content_kind self ≡ content_kind other) }
    {
        self.content() == other.content()
    }
}
