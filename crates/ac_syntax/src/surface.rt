// The trees of programs as they are written. Each node has the place of the first byte of its first
// token.

use ac_types::{
    BareExn, Boxed, Constraint, Many, Primitive, Resolve, Text, TextExn, Version, Word,
};

/// A program, or a module alone: then there is no expression.
pub struct Surface {
    pub defs: Many<SDef>,
    pub expr: Option<SExpr>,
}

impl Drop for Surface {
    fn drop(self) {
        let Surface { defs: _, expr: _ } = self;
    }
}

/// A name where it is written.
pub struct SName {
    pub at: u32,
    pub word: Word,
}

impl Drop for SName {
    fn drop(self) {
        let SName { at: _, word: _ } = self;
    }
}

/// A definition.
pub struct SDef {
    pub at: u32,
    pub kind: SDefKind,
}

impl Drop for SDef {
    fn drop(self) {
        let SDef { at: _, kind: _ } = self;
    }
}

/// What a definition is.
pub enum SDefKind {
    Module {
        name: SName,
        sig: SSig,
        version: Option<Version>,
        fields: Many<SField>,
    },
    Import {
        name: SName,
        sig: SSig,
        wants: SWants,
        like: Option<Many<SAbbrev>>,
        by: Many<Resolve>,
    },
    Mark {
        text_at: u32,
        text: Text,
    },
}

impl Drop for SDefKind {
    fn drop(self) {
        match self {
            SDefKind::Module {
                name: _,
                sig: _,
                version: _,
                fields: _,
            }
            | SDefKind::Import {
                name: _,
                sig: _,
                wants: _,
                like: _,
                by: _,
            }
            | SDefKind::Mark {
                text_at: _,
                text: _,
            } => {}
        }
    }
}

/// What an import asks of its module: a version, or the name of a definition.
pub enum SWants {
    Ranges(Constraint),
    NameOf(SName),
}

impl Drop for SWants {
    fn drop(self) {
        match self {
            SWants::Ranges(_) | SWants::NameOf(_) => {}
        }
    }
}

/// A type with a name of its own.
pub struct SAbbrev {
    pub name: SName,
    pub ty: SType,
}

impl Drop for SAbbrev {
    fn drop(self) {
        let SAbbrev { name: _, ty: _ } = self;
    }
}

/// A signature.
pub struct SSig {
    pub at: u32,
    pub specs: Many<SSpec>,
}

impl Drop for SSig {
    fn drop(self) {
        let SSig { at: _, specs: _ } = self;
    }
}

/// A part of a signature.
pub enum SSpec {
    Abstract(SName),
    Manifest(SAbbrev),
    Val(SName, SType),
}

impl Drop for SSpec {
    fn drop(self) {
        match self {
            SSpec::Abstract(_) | SSpec::Manifest(_) | SSpec::Val(_, _) => {}
        }
    }
}

/// A part of a struct.
pub enum SField {
    Abbrev(SAbbrev),
    Val(SName, SType, SExpr),
}

impl Drop for SField {
    fn drop(self) {
        match self {
            SField::Abbrev(_) | SField::Val(_, _, _) => {}
        }
    }
}

/// A type.
#[cycle(types)]
pub struct SType {
    pub at: u32,
    pub kind: STypeKind,
}

impl Drop for SType {
    #[cycle(drop_type)]
    fn drop(self) {
        let SType { at: _, kind: _ } = self;
    }
}

/// What a type is.
#[cycle(types)]
pub enum STypeKind {
    Int,
    Bool,
    Str,
    Unit,
    Exn,
    Local(Word),
    Of(SName, SName),
    Tuple(Many<SType>),
    List(Boxed<SType>),
    Opt(Boxed<SType>),
    Fun(Boxed<SType>, Boxed<SType>),
}

impl Drop for STypeKind {
    #[cycle(drop_type)]
    fn drop(self) {
        match self {
            STypeKind::Int
            | STypeKind::Bool
            | STypeKind::Str
            | STypeKind::Unit
            | STypeKind::Exn
            | STypeKind::Local(_)
            | STypeKind::Of(_, _)
            | STypeKind::Tuple(_)
            | STypeKind::List(_)
            | STypeKind::Opt(_)
            | STypeKind::Fun(_, _) => {}
        }
    }
}

/// An expression.
#[cycle(expressions)]
pub struct SExpr {
    pub at: u32,
    pub kind: SExprKind,
}

impl Drop for SExpr {
    #[cycle(drop_expression)]
    fn drop(self) {
        let SExpr { at: _, kind: _ } = self;
    }
}

/// A function with a name, which its body may call.
#[cycle(expressions)]
pub struct SFun {
    pub name: SName,
    pub arg: SName,
    pub ty: SType,
    pub result: SType,
    pub body: Boxed<SExpr>,
}

impl Drop for SFun {
    #[cycle(drop_expression)]
    fn drop(self) {
        let SFun {
            name: _,
            arg: _,
            ty: _,
            result: _,
            body: _,
        } = self;
    }
}

/// What an expression is. `Op` has an operator's primitive. A constant with its `-` is one `Int`.
#[cycle(expressions)]
pub enum SExprKind {
    Int(i64),
    Bool(bool),
    Str(Text),
    Unit,
    Exn(BareExn),
    ExnOf(TextExn, Boxed<SExpr>),
    Tuple(Many<SExpr>),
    Nil(SType),
    Absent(SType),
    Present(Boxed<SExpr>),
    Cons(Boxed<SExpr>, Boxed<SExpr>),
    Var(Word),
    Of(SName, SName),
    Fun(SName, SType, Boxed<SExpr>),
    Rec(SFun),
    App(Boxed<SExpr>, Boxed<SExpr>),
    Let(SName, SType, Boxed<SExpr>, Boxed<SExpr>),
    LetRec(SFun, Boxed<SExpr>),
    If(Boxed<SExpr>, Boxed<SExpr>, Boxed<SExpr>),
    Seq(Many<SExpr>),
    Match(Boxed<SExpr>, Many<SArm>),
    Try(Boxed<SExpr>, Many<SArm>),
    Raise(Boxed<SExpr>, SType),
    And(Boxed<SExpr>, Boxed<SExpr>),
    Or(Boxed<SExpr>, Boxed<SExpr>),
    Op(Primitive, Many<SExpr>),
    Marshal(Boxed<SExpr>, Boxed<SExpr>, SType),
    Unmarshal(Boxed<SExpr>, SType),
}

impl Drop for SExprKind {
    #[cycle(drop_expression)]
    fn drop(self) {
        match self {
            SExprKind::Int(_)
            | SExprKind::Bool(_)
            | SExprKind::Str(_)
            | SExprKind::Unit
            | SExprKind::Exn(_)
            | SExprKind::ExnOf(_, _)
            | SExprKind::Tuple(_)
            | SExprKind::Nil(_)
            | SExprKind::Absent(_)
            | SExprKind::Present(_)
            | SExprKind::Cons(_, _)
            | SExprKind::Var(_)
            | SExprKind::Of(_, _)
            | SExprKind::Fun(_, _, _)
            | SExprKind::Rec(_)
            | SExprKind::App(_, _)
            | SExprKind::Let(_, _, _, _)
            | SExprKind::LetRec(_, _)
            | SExprKind::If(_, _, _)
            | SExprKind::Seq(_)
            | SExprKind::Match(_, _)
            | SExprKind::Try(_, _)
            | SExprKind::Raise(_, _)
            | SExprKind::And(_, _)
            | SExprKind::Or(_, _)
            | SExprKind::Op(_, _)
            | SExprKind::Marshal(_, _, _)
            | SExprKind::Unmarshal(_, _) => {}
        }
    }
}

/// A pattern with what it leads to.
#[cycle(expressions)]
pub struct SArm {
    pub pat: SPat,
    pub body: SExpr,
}

impl Drop for SArm {
    #[cycle(drop_expression)]
    fn drop(self) {
        let SArm { pat: _, body: _ } = self;
    }
}

/// A pattern.
#[cycle(patterns)]
pub struct SPat {
    pub at: u32,
    pub kind: SPatKind,
}

impl Drop for SPat {
    #[cycle(drop_pattern)]
    fn drop(self) {
        let SPat { at: _, kind: _ } = self;
    }
}

/// What a pattern is. A constant with its `-` is one `Int`.
#[cycle(patterns)]
pub enum SPatKind {
    Wild,
    Var(SName, SType),
    Int(i64),
    Bool(bool),
    Str(Text),
    Unit,
    Tuple(Many<SPat>),
    Nil,
    Cons(Boxed<SPat>, Boxed<SPat>),
    Absent,
    Present(Boxed<SPat>),
    Exn(BareExn),
    ExnOf(TextExn, Boxed<SPat>),
}

impl Drop for SPatKind {
    #[cycle(drop_pattern)]
    fn drop(self) {
        match self {
            SPatKind::Wild
            | SPatKind::Var(_, _)
            | SPatKind::Int(_)
            | SPatKind::Bool(_)
            | SPatKind::Str(_)
            | SPatKind::Unit
            | SPatKind::Tuple(_)
            | SPatKind::Nil
            | SPatKind::Cons(_, _)
            | SPatKind::Absent
            | SPatKind::Present(_)
            | SPatKind::Exn(_)
            | SPatKind::ExnOf(_, _) => {}
        }
    }
}
