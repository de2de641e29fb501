// The violations in expressions.

ghost use Rattle.std.specs.Prelude.{◌≡◌, ◌∷◌, ◌++◌, map, Some, None};
ghost use Rattle.script_check.specs.Violations.{earliest};
ghost use Rattle.script_check.specs.Rules.{scalar_use, array_use, kind_of_variable, is_other_kind, wrong_kind};
ghost use Rattle.script_check.specs.Expressions.{reading_of, read_sum_part, read_product_part, wanted, all_wanted};
ghost use Rattle.script_check.specs.Walk.{known_in, pending_in};
ghost use Rattle.script_grammar.specs.declared.tree.Kind.TheVariants as kind;

use crate::condition::Condition;
use crate::findings::Findings;
use crate::symbols::SymbolTable;
use crate::variable::Variable;
use script_grammar::{Expr, Kind, Name, ProductPart, SumPart};

// An expression's offset, and its kind if it has one.
#[derive(Clone, Copy)]
pub(crate) struct Seen {
    pub at: u32,
    pub kind: Option<Kind>,
}

impl Seen {
    // A number at this offset.
    fn int(at: u32) -> Seen
        ensures at { result.at ≡ at }
        ensures kind { result.kind ≡ Some kind.Int }
    {
        Seen {
            at,
            kind: Some(Kind::Int),
        }
    }

    // Adds a violation where the kind isn't the wanted one.
    pub(crate) fn want(self, found: &mut Findings, kind: Kind)
        ensures { found.new ≡ earliest found.old (wrong_kind kind self.kind self.at) }
    {
        found.add_violation_if(
            is_other_kind(kind, self.kind),
            Condition::WrongKind,
            self.at,
        );
    }
}

// Whether the kind isn't the wanted one.
fn is_other_kind(wanted: Kind, kind: Option<Kind>) -> bool
    ensures { result ≡ is_other_kind wanted kind }
{
    match (wanted, kind) {
        (Kind::Int, Some(Kind::Id)) | (Kind::Id, Some(Kind::Int)) => true,
        _ => false,
    }
}

// A name that is read or written as a scalar, and its kind.
pub(crate) fn use_scalar(symbols: &SymbolTable, found: &mut Findings, x: &Name) -> Option<Kind>
    ensures kind { result ≡ kind_of_variable ((known_in symbols.now).what x.now.bytes) }
    ensures found { found.new ≡ earliest found.old (scalar_use ((known_in symbols.now).what x.now.bytes) (pending_in symbols.now) x.now) }
{
    match symbols.variable(x) {
        Some(Variable::Scalar(kind)) => {
            found.add_violation_if(symbols.is_pending(x), Condition::PendingVariable, x.at);
            Some(kind)
        }
        Some(Variable::Array) => {
            found.add_violation_if(true, Condition::WrongKind, x.at);
            found.add_violation_if(symbols.is_pending(x), Condition::PendingVariable, x.at);
            None
        }
        None => {
            found.add_violation_if(true, Condition::UnknownVariable, x.at);
            None
        }
    }
}

// A name that is read or written as an array.
pub(crate) fn use_array(symbols: &SymbolTable, found: &mut Findings, x: &Name)
    ensures { found.new ≡ earliest found.old (array_use ((known_in symbols.now).what x.now.bytes) (pending_in symbols.now) x.now) }
{
    match symbols.variable(x) {
        Some(Variable::Scalar(_)) => {
            found.add_violation_if(true, Condition::WrongKind, x.at);
            found.add_violation_if(symbols.is_pending(x), Condition::PendingVariable, x.at);
        }
        Some(Variable::Array) => found.add_violation_if(
            symbols.is_pending(x),
            Condition::PendingVariable,
            x.at,
        ),
        None => found.add_violation_if(true, Condition::UnknownVariable, x.at),
    }
}

// An expression of any kind.
#[cycle(expressions)]
#[tactic(auto, using(crate::proofs::LeastViolation::Earliest::earliest_append))]
pub(crate) fn see(symbols: &SymbolTable, found: &mut Findings, e: &Expr) -> Seen
    ensures at { result.at ≡ (reading_of e.now).at }
    ensures kind { result.kind ≡ (reading_of e.now).kind (known_in symbols.now) }
    ensures found { found.new ≡ earliest found.old ((reading_of e.now).violations (known_in symbols.now) (pending_in symbols.now)) }
{
    match e {
        Expr::Number(n) => Seen::int(n.at),
        Expr::Var(x) => {
            let kind = use_scalar(symbols, found, x);
            Seen { at: x.at, kind }
        }
        Expr::Item(x, i) => see_item(symbols, found, x, i.get()),
        Expr::Neg(at, e) => {
            want(symbols, found, Kind::Int, e.get());
            Seen::int(*at)
        }
        Expr::Same(at, a, b) | Expr::Older(at, a, b) => {
            want(symbols, found, Kind::Id, a.get());
            want(symbols, found, Kind::Id, b.get());
            Seen::int(*at)
        }
        Expr::Compare(a, _, b) => {
            let at = want(symbols, found, Kind::Int, a.get());
            want(symbols, found, Kind::Int, b.get());
            Seen::int(at)
        }
        Expr::Sum(first, parts) => {
            let at = want(symbols, found, Kind::Int, first.get());
            want_summands(symbols, found, parts.as_slice());
            Seen::int(at)
        }
        Expr::Product(first, parts) => {
            let at = want(symbols, found, Kind::Int, first.get());
            want_factors(symbols, found, parts.as_slice());
            Seen::int(at)
        }
    }
}

// An item of an array.
#[cycle(expressions)]
#[tactic(auto, using(crate::proofs::LeastViolation::Earliest::earliest_append))]
fn see_item(symbols: &SymbolTable, found: &mut Findings, x: &Name, i: &Expr) -> Seen
    ensures at { result.at ≡ x.now.at }
    ensures kind { result.kind ≡ Some kind.Int }
    ensures found { found.new ≡ earliest found.old (array_use ((known_in symbols.now).what x.now.bytes) (pending_in symbols.now) x.now
        ++ wanted kind.Int (reading_of i.now) (known_in symbols.now) (pending_in symbols.now)) }
{
    use_array(symbols, found, x);
    want(symbols, found, Kind::Int, i);
    Seen::int(x.at)
}

// An expression that must be of this kind. Returns its offset.
#[cycle(expressions)]
#[tactic(auto, using(crate::proofs::LeastViolation::Earliest::earliest_append), unfolding(crate::specs::Expressions::wanted))]
pub(crate) fn want(symbols: &SymbolTable, found: &mut Findings, kind: Kind, e: &Expr) -> u32
    ensures at { result ≡ (reading_of e.now).at }
    ensures found { found.new ≡ earliest found.old (wanted kind (reading_of e.now) (known_in symbols.now) (pending_in symbols.now)) }
{
    let seen = see(symbols, found, e);
    seen.want(found, kind);
    seen.at
}

// The operands of a sum after the first.
#[cycle(expressions)]
#[tactic(auto, using(crate::proofs::LeastViolation::Earliest::earliest_append))]
fn want_summands(symbols: &SymbolTable, found: &mut Findings, parts: &[SumPart])
    ensures { found.new ≡ earliest found.old (all_wanted kind.Int (map read_sum_part parts.now) (known_in symbols.now) (pending_in symbols.now)) }
{
    for part in parts {
        want(symbols, found, Kind::Int, &part.operand);
    }
}

// The operands of a product after the first.
#[cycle(expressions)]
#[tactic(auto, using(crate::proofs::LeastViolation::Earliest::earliest_append))]
fn want_factors(symbols: &SymbolTable, found: &mut Findings, parts: &[ProductPart])
    ensures { found.new ≡ earliest found.old (all_wanted kind.Int (map read_product_part parts.now) (known_in symbols.now) (pending_in symbols.now)) }
{
    for part in parts {
        want(symbols, found, Kind::Int, &part.operand);
    }
}
