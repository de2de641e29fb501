ghost use Rattle.std.specs.Prelude.{◌≡◌, ◌↔◌, IsTrue};

use crate::plan::Plan;
use crate::same_expression::{same_expr, same_name};
use crate::same_statement::same_stmts;
use dotmix::Gamma;
use script_grammar::{Function, Param, Script};

fn same_params(params: &[Param], others: &[Param]) -> bool
    ensures { IsTrue result ↔ (params.now ≡ others.now) }
{
    if params.len() != others.len() {
        return false;
    }
    for (i, param) in params.iter().enumerate() {
        let other = &others[i];
        if param.kind != other.kind || !same_name(&param.name, &other.name) {
            return false;
        }
    }
    true
}

fn same_function(function: &Function, other: &Function) -> bool
    ensures { IsTrue result ↔ (function.now ≡ other.now) }
{
    same_name(&function.name, &other.name)
        && same_params(function.params.as_slice(), other.params.as_slice())
        && function.answer == other.answer
        && same_stmts(function.body.as_slice(), other.body.as_slice())
        && function.return_at == other.return_at
        && same_expr(&function.result, &other.result)
}

fn same_functions(functions: &[Function], others: &[Function]) -> bool
    ensures { IsTrue result ↔ (functions.now ≡ others.now) }
{
    if functions.len() != others.len() {
        return false;
    }
    for (i, function) in functions.iter().enumerate() {
        if !same_function(function, &others[i]) {
            return false;
        }
    }
    true
}

fn same_script(script: &Script, other: &Script) -> bool
    ensures { IsTrue result ↔ (script.now ≡ other.now) }
{
    script.version == other.version
        && same_functions(script.functions.as_slice(), other.functions.as_slice())
}

fn same_gamma(gamma: &Gamma, other: &Gamma) -> bool
    ensures { IsTrue result ↔ (gamma.now ≡ other.now) }
{
    if gamma.len() != other.len() {
        return false;
    }
    for i in 0..gamma.len() {
        if gamma.coeff(i + 1) != other.coeff(i + 1) {
            return false;
        }
    }
    true
}

impl Plan {
    /// Whether both are the same plan: script, coefficients, limits, show and rounds. It compares all of both, so a
    /// caller may first ask whether they are one value in memory. It takes no memory.
    pub fn same(&self, other: &Plan) -> bool
        ensures { IsTrue result ↔ (self.now ≡ other.now) }
    {
        self.limits == other.limits
            && self.show == other.show
            && self.rounds == other.rounds
            && same_gamma(&self.gamma, &other.gamma)
            && same_script(self.checked.script(), other.checked.script())
    }
}
