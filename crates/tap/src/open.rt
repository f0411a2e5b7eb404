//! Listeners, opened as they are asked for.

ghost use Rattle.std.specs.Prelude.{◌≡◌, ◌≢◌, ◌≤◌, length, IfOk, IfErr, OnOk, ◌⊎◌};
ghost use Rattle.std.specs.List.{AllZip};
ghost use Rattle.tap.specs.Filters.{IsReadAs, AreExpressionsOf};
ghost use Rattle.tap.specs.Refusals.{FilterIsRight, RefusesFilter, RefusesListener, RefusesOne};
ghost use Rattle.tap.specs.Opening.{Opened, ProgramOf};
ghost use Rattle.filterlang.specs.declared.fault.Fault.TheVariants as misread;
ghost use Rattle.tap.specs.declared.fault.Fault.TheVariants.{NoMemory, Expression};

use crate::fault::Fault;
use bpfvm::Program;
use filtergen_code::compile;
use filtergen_facts::Refusal;
use filterlang::Expr;
use listener::{Listener, OpenFault};
use std::alloc::Global;
use tap_steps::{Filter, Spec, Watched};

/// Why the text of the l-th listener is no expression.
fn misread(l: u32, fault: filterlang::Fault) -> Fault
    ensures { (result ≡ NoMemory) ⊎ ((fault ≢ misread.NoMemory) × (result ≡ Expression l fault)) }
{
    match fault {
        filterlang::Fault::NoMemory => Fault::NoMemory,
        _ => Fault::Expression(l, fault),
    }
}

/// The program of the l-th listener, and its expression, if its filter is one.
fn program_of(alloc: Global, l: u32, spec: &Spec) -> Result<(Program, Option<Expr>), Fault>
    ensures ok { IfOk result (λ r. ProgramOf spec.now.filter spec.now.snap r.0) }
    ensures expr { IfOk result (λ r. IsReadAs spec.now.filter r.1) }
    ensures stands { OnOk result (FilterIsRight spec.now.filter spec.now.snap) }
    ensures err { IfErr result (λ f. (f ≡ NoMemory) ⊎ RefusesFilter l spec.now.filter spec.now.snap f) }
{
    match &spec.filter {
        Filter::Program(program) => Ok((program.clone()?, None)),
        Filter::Text(text) => {
            let expr = match filterlang::parse(alloc, text.as_str()) {
                Ok(expr) => expr,
                Err(fault) => return Err(misread(l, fault)),
            };
            match compile(&expr, spec.snap) {
                Ok(program) => Ok((program, Some(expr))),
                Err(Refusal::NoMemory) => Err(Fault::NoMemory),
                Err(refusal) => Err(Fault::Compile(l, refusal)),
            }
        }
    }
}

/// The l-th listener, and its expression, if its filter is one.
fn open_one(
    alloc: Global,
    l: u32,
    spec: &Spec,
    traced: bool,
) -> Result<(Watched, Option<Expr>), Fault>
    ensures ok { IfOk result (λ r. Opened traced spec.now r.0) }
    ensures expr { IfOk result (λ r. IsReadAs spec.now.filter r.1) }
    ensures err { IfErr result (λ f. (f ≡ NoMemory) ⊎ RefusesListener l spec.now f) }
{
    let (program, expr) = program_of(alloc, l, spec)?;
    match Listener::open_as(alloc, program, spec.snap, spec.capacity, spec.mode) {
        Ok(listener) => Ok((Watched::new(alloc, listener, traced), expr)),
        Err(OpenFault::NoMemory) => Err(Fault::NoMemory),
        Err(fault) => Err(Fault::Open(l, fault)),
    }
}

/// All listeners, in order, and the expression of each, if its filter is one. `traced` says that
/// their answers are followed.
pub fn open_all(
    alloc: Global,
    specs: &[Spec],
    traced: bool,
) -> Result<(Vec<Watched>, Vec<Option<Expr>>), Fault>
    requires { length specs.now ≤ 64 }
    ensures ok { IfOk result (λ r. AllZip (Opened traced) specs.now r.0.items) }
    ensures expressions { IfOk result (λ r. AreExpressionsOf specs.now r.1.items) }
    ensures err { IfErr result (λ f. (f ≡ NoMemory) ⊎ RefusesOne specs.now f) }
{
    let mut watched = Vec::with_capacity(alloc, specs.len())?;
    let mut expressions = Vec::with_capacity(alloc, specs.len())?;
    for (l, spec) in specs.iter().enumerate() {
        let (one, expr) = open_one(alloc, l as u32, spec, traced)?;
        watched.push(one)?;
        expressions.push(expr)?;
    }
    Ok((watched, expressions))
}
