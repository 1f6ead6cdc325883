//! Kinds of expressions and patterns that are read and judged, and that inference does not carry yet.
use crate::raw::RawStmt;
use hir_types::{
    BindingId, ConstId, ExprId, FunctionId, ImplId, LabelId, List, Mutability, PatId, StaticId,
    Text, TraitId, TypeRefId, VariantId,
};

/// A const argument or a length, as it is written.
#[derive(Clone, Copy, Debug)]
pub enum RawConst {
    Value(u64),
    /// The const parameter with this number.
    Param(u32),
    /// One whose value is not known.
    Unknown,
    /// `_`.
    Hole,
}

/// A written argument.
#[derive(Clone, Copy, Debug)]
pub enum RawArg {
    Type(TypeRefId),
    Const(RawConst),
}

/// A literal.
#[derive(Debug, Drop)]
pub enum LaterLiteral {
    Str(Text),
    /// A byte string, by its length.
    Bytes(u32),
    CStr,
}

/// What a path names.
#[derive(Debug, Drop)]
pub enum LaterPath {
    /// A local with a written list.
    Local(BindingId, List<RawArg>),
    /// A function with a written list.
    Function(FunctionId, List<RawArg>),
    /// The constructor of a variant, with a written list.
    Ctor(VariantId, List<RawArg>),
    Const(ConstId, Option<List<RawArg>>),
    Static(StaticId, Option<List<RawArg>>),
    /// `Type::name`.
    Typed {
        ty: TypeRefId,
        name: Text,
        args: Option<List<RawArg>>,
    },
    /// `Trait::name`.
    Trait {
        trait_: TraitId,
        trait_args: Option<List<RawArg>>,
        name: Text,
        args: Option<List<RawArg>>,
    },
    /// The constructor `Self` of an impl.
    SelfCtor(ImplId, Option<List<RawArg>>),
    /// The const parameter with this number.
    ConstParam(u32, Option<List<RawArg>>),
    /// A path that does not resolve.
    Unresolved {
        /// Whether it is one identifier.
        is_ident: bool,
    },
}

/// What a path to a variant names.
#[derive(Debug, Drop)]
pub enum RawVariantPath {
    Variant(VariantId, Option<List<RawArg>>),
    /// The one variant of a struct or union.
    Type(TypeRefId),
    /// `Type::name`.
    Typed(TypeRefId, Text),
    Unresolved,
}

/// A field of a record expression.
#[derive(Debug, Drop)]
pub struct RawRecordField {
    pub name: Text,
    pub expr: ExprId,
}

/// A field of a record pattern.
#[derive(Debug, Drop)]
pub struct RawRecordFieldPat {
    pub name: Text,
    pub pat: PatId,
}

/// A parameter of a closure.
#[derive(Clone, Copy, Debug)]
pub struct RawClosureParam {
    pub pat: PatId,
    pub type_ref: Option<TypeRefId>,
}

/// An operator with one operand.
#[derive(Clone, Copy, Debug, PartialEq, Eq)]
pub enum UnaryOp {
    Not,
    Neg,
    Deref,
}

/// An operator of two integers.
#[derive(Clone, Copy, Debug, PartialEq, Eq)]
pub enum ArithOp {
    Add,
    Sub,
    Mul,
    Div,
    Rem,
    BitAnd,
    BitOr,
    BitXor,
    Shl,
    Shr,
}

/// A comparison.
#[derive(Clone, Copy, Debug, PartialEq, Eq)]
pub enum CmpOp {
    Eq,
    Ne,
    Lt,
    Le,
    Gt,
    Ge,
}

/// `&&` or `||`.
#[derive(Clone, Copy, Debug, PartialEq, Eq)]
pub enum LogicOp {
    And,
    Or,
}

/// An operator with two operands.
#[derive(Clone, Copy, Debug, PartialEq, Eq)]
pub enum BinaryOp {
    Logic(LogicOp),
    Arith(ArithOp),
    Cmp(CmpOp),
    /// Compound assignment.
    Assign(ArithOp),
}

/// An expression.
#[derive(Debug, Drop)]
pub enum LaterExpr {
    Missing,
    /// `_`.
    Underscore,
    /// The offset of a field.
    Offset,
    Lit(LaterLiteral),
    Path(LaterPath),
    Unsafe {
        statements: List<RawStmt>,
        tail: Option<ExprId>,
    },
    Const(ExprId),
    Let {
        pat: PatId,
        expr: ExprId,
    },
    Loop {
        label: Option<LabelId>,
        body: ExprId,
    },
    MethodCall {
        receiver: ExprId,
        method_name: Text,
        generic_args: Option<List<RawArg>>,
        args: List<ExprId>,
    },
    Field {
        expr: ExprId,
        name: Text,
    },
    Break {
        label: Option<LabelId>,
        expr: Option<ExprId>,
    },
    Continue {
        label: Option<LabelId>,
    },
    Return(Option<ExprId>),
    Become(ExprId),
    RecordLit {
        path: RawVariantPath,
        fields: List<RawRecordField>,
        spread: Option<ExprId>,
    },
    Cast {
        expr: ExprId,
        type_ref: TypeRefId,
    },
    Ref {
        is_raw: bool,
        mutability: Mutability,
        expr: ExprId,
    },
    Box(ExprId),
    UnaryOp {
        op: UnaryOp,
        expr: ExprId,
    },
    BinaryOp {
        op: Option<BinaryOp>,
        lhs: ExprId,
        rhs: ExprId,
    },
    Assignment {
        target: PatId,
        value: ExprId,
    },
    Range {
        is_inclusive: bool,
        lhs: Option<ExprId>,
        rhs: Option<ExprId>,
    },
    Index {
        base: ExprId,
        index: ExprId,
    },
    Array(List<ExprId>),
    Repeat {
        initializer: ExprId,
        repeat: ExprId,
        length: RawConst,
    },
    Closure {
        params: List<RawClosureParam>,
        ret_type: Option<TypeRefId>,
        body: ExprId,
    },
}

/// A pattern.
#[derive(Debug, Drop)]
pub enum LaterPat {
    Missing,
    /// A tuple with `..` after so many patterns.
    TupleDots {
        args: List<PatId>,
        dots: u32,
    },
    /// A constructor over patterns of its fields, with `..` after `dots` of them.
    TupleStruct {
        path: RawVariantPath,
        args: List<PatId>,
        dots: Option<u32>,
    },
    Record {
        path: RawVariantPath,
        args: List<RawRecordFieldPat>,
    },
    Path(LaterPath),
    Range {
        start: Option<ExprId>,
        end: Option<ExprId>,
    },
    Slice {
        prefix: List<PatId>,
        slice: Option<PatId>,
        suffix: List<PatId>,
    },
    Ref {
        mutability: Mutability,
        pat: PatId,
    },
    Or(List<PatId>),
    Box(PatId),
    ConstBlock(ExprId),
    Expr(ExprId),
}
