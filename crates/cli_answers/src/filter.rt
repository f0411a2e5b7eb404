//! The filter that packets are asked.

ghost use Rattle.std.specs.Prelude.{IfOk, IfErr};
ghost use Rattle.filterlang.specs.Texts.{IsRefusalOf};
ghost use Rattle.cli_answers.specs.Filter.{IsOfExpression, IsOfProgram};

use bpfvm::Program;
use filterlang::{Expr, Fault, parse};
use std::alloc::{AllocError, Global};

/// A filter that packets are asked.
#[derive(Drop)]
pub enum AskedFilter {
    /// An expression, which is asked itself: no program is made of it.
    Expression(Expr),
    /// A program, such as that of a listing. It is boxed, since it has thousands of bytes.
    Program(Box<Program>),
}

/// The filter of an expression.
///
/// The fault is that of a text which is no expression; or `NoMemory`.
pub fn of_expression(alloc: Global, text: &str) -> Result<AskedFilter, Fault>
    ensures filter { IfOk result (IsOfExpression text.now) }
    ensures fault { IfErr result (IsRefusalOf text.now) }
{
    match parse(alloc, text) {
        Ok(expr) => Ok(AskedFilter::Expression(expr)),
        Err(fault) => Err(fault),
    }
}

/// The filter that a program is. It fails if memory is refused.
pub fn of_program(alloc: Global, program: Program) -> Result<AskedFilter, AllocError>
    ensures { IfOk result (IsOfProgram program) }
{
    Ok(AskedFilter::Program(Box::new(alloc, program)?))
}
