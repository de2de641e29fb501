// The tree of a script: what the parser returns, and all above works on.
//
// Every `at` is an offset in bytes from the script's start. Parentheses aren't kept, and a sum or a product of one operand is that
// operand.

ghost use Rattle.std.specs.Prelude.{◌≡◌};

use crate::name_text::NameText;
use contract_views::{Boxed, Items};
use script_tokens::Version;

/// A name's bytes, and the offset of the first one.
#[derive(Drop)]
pub struct Name {
    pub bytes: NameText,
    pub at: u32,
}

impl Name {
    /// The same name with the same offset.
    #[inline(always)]
    pub fn copy(&self) -> Name
        ensures { result ≡ self.now }
    {
        Name {
            bytes: self.bytes.copy(),
            at: self.at,
        }
    }
}

/// A script: its version, and its functions in the order of the text. A run begins with the one named `main`.
#[derive(Drop)]
pub struct Script {
    /// The version that the text is of. Only version 2 has scopes.
    pub version: Version,
    /// The functions, in the order of the text.
    pub functions: Items<Function>,
}

/// `fn NAME(PARAMS) -> KIND { BODY return RESULT; }`. Each function has exactly one `return`, its last statement.
#[derive(Drop)]
pub struct Function {
    pub name: Name,
    pub params: Items<Param>,
    /// `Id` where the text has `-> id`, else `Int`.
    pub answer: Kind,
    pub body: Items<Stmt>,
    /// The offset of the word `return`.
    pub return_at: u32,
    pub result: Expr,
}

/// What a scalar holds: a 64-bit integer, or an object's id.
#[derive(Clone, Copy, Debug, PartialEq, Eq)]
pub enum Kind {
    Int,
    Id,
}

/// A parameter: `NAME`, or `id NAME`.
#[derive(Drop)]
pub struct Param {
    pub kind: Kind,
    pub name: Name,
}

/// A function's name and arguments, as in `f(x, y + 1)`.
#[derive(Drop)]
pub struct CallText {
    pub name: Name,
    pub args: Items<Expr>,
}

/// The right side of `let x = ..` and `x = ..`. The number is the offset of the word `draw`, `new`, `call` or `spawn`.
#[derive(Drop)]
pub enum Right {
    Value(Expr),
    Draw(u32),
    New(u32),
    Call(u32, CallText),
    Spawn(u32, CallText),
}

/// A statement with the offset of its first token.
#[cycle(stmt)]
#[derive(Drop)]
pub struct Stmt {
    pub at: u32,
    pub act: Act,
}

/// What a statement does.
#[cycle(stmt)]
#[derive(Drop)]
pub enum Act {
    /// `let x = R;`
    Let(Name, Right),
    /// `let a[n];`: an array of n zeros.
    Array(Name, Number),
    /// `x = R;`
    Set(Name, Right),
    /// `a[E] = E;`
    Store(Name, Expr, Expr),
    /// `spawn f(..);`
    Spawn(CallText),
    /// `call f(..);`
    Call(CallText),
    /// `sync;`
    Sync,
    /// `print E;`
    Print(Expr),
    /// `if E { .. } else { .. }`; a missing `else` is an empty list.
    If(Expr, Items<Stmt>, Items<Stmt>),
    /// `while E { .. }`
    While(Expr, Items<Stmt>),
    /// `pfor i in E..E into a call f(i, ..);`, where `args` are those after the loop variable.
    Pfor {
        var: Name,
        lo: Expr,
        hi: Expr,
        target: Option<Name>,
        call: CallText,
    },
    /// `scope { .. }`, in version 2 only: its block is one level deeper in the pedigree.
    Scope(Items<Stmt>),
}

/// A number of the text, at most 9223372036854775807.
#[derive(Clone, Copy, Debug, PartialEq, Eq)]
pub struct Number {
    pub at: u32,
    pub value: i64,
}

/// An expression. The number in `Neg`, `Same` and `Older` is the offset of the minus or of the word.
#[cycle(expr)]
#[derive(Drop)]
pub enum Expr {
    Number(Number),
    Var(Name),
    /// `a[E]`
    Item(Name, Boxed<Expr>),
    /// `-E`
    Neg(u32, Boxed<Expr>),
    /// `same(E, E)`: whether two ids are the same.
    Same(u32, Boxed<Expr>, Boxed<Expr>),
    /// `older(E, E)`: whether the first id's pedigree precedes the second's.
    Older(u32, Boxed<Expr>, Boxed<Expr>),
    Compare(Boxed<Expr>, Comparison, Boxed<Expr>),
    /// The first operand, and at least one more with its sign.
    Sum(Boxed<Expr>, Items<SumPart>),
    /// The first operand, and at least one more with its sign.
    Product(Boxed<Expr>, Items<ProductPart>),
}

/// `==`, `!=`, `<`, `<=`, `>`, `>=`.
#[derive(Clone, Copy, Debug, PartialEq, Eq)]
pub enum Comparison {
    Eq,
    Ne,
    Lt,
    Le,
    Gt,
    Ge,
}

/// `+ E`, or `- E` where `minus` is set.
#[cycle(expr)]
#[derive(Drop)]
pub struct SumPart {
    pub minus: bool,
    pub operand: Expr,
}

/// `* E`, `/ E` or `% E`.
#[cycle(expr)]
#[derive(Drop)]
pub struct ProductPart {
    pub sign: ProductSign,
    pub operand: Expr,
}

/// `*`, `/`, `%`.
#[derive(Clone, Copy, Debug, PartialEq, Eq)]
pub enum ProductSign {
    Times,
    Over,
    Modulo,
}
