//! Errors, with the terms that they speak of.
ghost use Rattle.std.specs.Prelude.{◌≡◌, ◌++◌, OnOk};
ghost use Rattle.lf_elaboration.specs.Part as spec;
ghost use Rattle.lf_part.specs.Runs.{Runs, Calm};
ghost use Rattle.lf_part.specs.Says as says;
ghost use Rattle.lf_part.specs.Tells as tells;
ghost use Rattle.lf_part.specs.Values as own;

use crate::ended::Ended;
use crate::locals::Locals;
use crate::message::{Diagnostic, Message};
use crate::part::Part;
use crate::reading::instantiated;
use crate::state::State;
use crate::synth::Synth;
use lf_checker::TypeFault;
use lf_core::{Expr, Name, NoMemory};
use lf_msg::{ElaborationError, KernelError, ProofError};
use lf_name::Word;
use lf_print::print;
use lf_steps::Refused;
use std::alloc::Global;

/// An error that speaks of one term.
#[derive(Clone, Copy, Debug)]
pub enum OfOne {
    FunctionExpected,
    TypeExpected,
    NoInstance,
    UnsolvedGoal,
    FunctionWanted,
    TypeWanted,
    StructureWanted,
}

/// An error that speaks of two terms: what stands there has the first for its type, and the second is expected.
#[derive(Clone, Copy, Debug)]
pub enum OfTwo {
    TypeMismatch,
    Argument,
    Value,
}

impl OfOne {
    fn says(self, text: Word) -> Diagnostic
        ensures { says.diagnostic result ≡ tells.of_one self text }
    {
        match self {
            OfOne::FunctionExpected => {
                Diagnostic::Elaboration(ElaborationError::FunctionExpected(text))
            }
            OfOne::TypeExpected => Diagnostic::Elaboration(ElaborationError::TypeExpected(text)),
            OfOne::NoInstance => Diagnostic::Elaboration(ElaborationError::NoInstance(text)),
            OfOne::UnsolvedGoal => Diagnostic::Proof(ProofError::UnsolvedGoal(text)),
            OfOne::FunctionWanted => Diagnostic::Kernel(KernelError::FunctionExpected(text)),
            OfOne::TypeWanted => Diagnostic::Kernel(KernelError::TypeExpected(text)),
            OfOne::StructureWanted => Diagnostic::Kernel(KernelError::StructureExpected(text)),
        }
    }
}

impl OfTwo {
    fn says(self, found: Word, expected: Word) -> Diagnostic
        ensures { says.diagnostic result ≡ tells.of_two self found expected }
    {
        match self {
            OfTwo::TypeMismatch => {
                Diagnostic::Elaboration(ElaborationError::TypeMismatch { found, expected })
            }
            OfTwo::Argument => Diagnostic::Kernel(KernelError::Argument { found, expected }),
            OfTwo::Value => Diagnostic::Kernel(KernelError::Value { found, expected }),
        }
    }
}

/// The error of a place that says this.
pub fn error(at: usize, says: Diagnostic) -> Ended
    ensures { result ≡ tells.failed_at at says }
{
    Ended::Failed(Message { at, says })
}

/// A term as a message prints it under these names of its free variables, with its assigned metavariables put in.
#[tactic(auto, using(crate::proofs::Runs::halts))]
pub fn shown_under<S: Synth>(
    part: Part<'_, S>,
    names: &[Name],
    units: &mut u64,
    state: &State,
    term: &Expr,
) -> Result<Word, Ended>
    ensures value { Runs (spec.shown_under (own.part S.meaning part.entry) names.now term.now units.old (own.state state.now)) result units.new
        (own.state state.now) }
    ensures calm { Calm result }
{
    let whole = instantiated(units, state, term)?;
    let text = print(part.alloc, &whole, names, part.levels)?;
    drop(whole);
    Ok(Word::new(part.alloc, text.as_str())?)
}

/// An error that speaks of one term, which stands under these names.
#[tactic(auto, using(crate::proofs::Runs::halts))]
pub fn error_on<T: Drop, S: Synth>(
    part: Part<'_, S>,
    names: &[Name],
    units: &mut u64,
    state: &State,
    at: usize,
    kind: OfOne,
    term: &Expr,
) -> Result<T, Ended>
    ensures value { Runs (spec.error_on (own.part S.meaning part.entry) names.now at (tells.of_one kind) term.now units.old (own.state state.now)) result
        units.new (own.state state.now) }
    ensures calm { Calm result }
{
    let text = shown_under(part, names, units, state, term)?;
    Err(error(at, kind.says(text)))
}

/// An error that speaks of two terms, which stand under these names.
#[tactic(auto, using(crate::proofs::Runs::halts))]
pub fn error_on_both<T: Drop, S: Synth>(
    part: Part<'_, S>,
    names: &[Name],
    units: &mut u64,
    state: &State,
    at: usize,
    kind: OfTwo,
    found: &Expr,
    expected: &Expr,
) -> Result<T, Ended>
    ensures value { Runs (spec.error_on_both (own.part S.meaning part.entry) names.now at (tells.of_two kind) found.now expected.now units.old
        (own.state state.now)) result units.new (own.state state.now) }
    ensures calm { Calm result }
{
    let found = shown_under(part, names, units, state, found)?;
    let expected = shown_under(part, names, units, state, expected)?;
    Err(error(at, kind.says(found, expected)))
}

/// A term of the first type stands where one of the second is expected.
pub fn mismatch<T: Drop, S: Synth>(
    part: Part<'_, S>,
    locals: &Locals,
    units: &mut u64,
    state: &State,
    at: usize,
    found: &Expr,
    expected: &Expr,
) -> Result<T, Ended>
    ensures value { Runs (spec.mismatch (own.part S.meaning part.entry) locals.now at found.now expected.now units.old (own.state state.now)) result
        units.new (own.state state.now) }
    ensures calm { Calm result }
{
    let names = locals.names.as_slice();
    error_on_both(
        part,
        names,
        units,
        state,
        at,
        OfTwo::TypeMismatch,
        found,
        expected,
    )
}

fn kernel(at: usize, says: KernelError) -> Ended
    ensures { result ≡ tells.kernel_at at says }
{
    error(at, Diagnostic::Kernel(says))
}

/// A fault of the checker, whose terms stand under these names, as the error of a place.
pub fn fault_at<T: Drop, S: Synth>(
    part: Part<'_, S>,
    names: &[Name],
    units: &mut u64,
    state: &State,
    at: usize,
    fault: TypeFault,
) -> Result<T, Ended>
    ensures value { Runs (spec.fault_at (own.part S.meaning part.entry) names.now at fault units.old (own.state state.now)) result units.new
        (own.state state.now) }
    ensures calm { Calm result }
{
    match fault {
        TypeFault::Unknown(name) => Err(kernel(at, KernelError::UnknownConstant(name))),
        TypeFault::Levels(name) => Err(kernel(at, KernelError::WrongLevelCount(name))),
        TypeFault::NotFunction(ty) => {
            error_on(part, names, units, state, at, OfOne::FunctionWanted, &ty)
        }
        TypeFault::Argument(found, expected) => error_on_both(
            part,
            names,
            units,
            state,
            at,
            OfTwo::Argument,
            &found,
            &expected,
        ),
        TypeFault::NotType(ty) => error_on(part, names, units, state, at, OfOne::TypeWanted, &ty),
        TypeFault::Value(found, expected) => error_on_both(
            part,
            names,
            units,
            state,
            at,
            OfTwo::Value,
            &found,
            &expected,
        ),
        TypeFault::NotClosed => Err(kernel(at, KernelError::NotClosed)),
        TypeFault::NotStructure(ty) => {
            error_on(part, names, units, state, at, OfOne::StructureWanted, &ty)
        }
        TypeFault::NotPositive(constructor, field) => {
            Err(kernel(at, KernelError::NotPositive { constructor, field }))
        }
        TypeFault::BadResult(name) => Err(kernel(at, KernelError::BadResult(name))),
        TypeFault::LevelTooHigh(constructor, field) => {
            Err(kernel(at, KernelError::LevelTooHigh { constructor, field }))
        }
        TypeFault::BadType => Err(kernel(at, KernelError::BadType)),
        TypeFault::Duplicate { name, .. } => Err(error(at, Diagnostic::Duplicate(name))),
    }
}

fn add_names(alloc: Global, names: &[Name], all: &mut Vec<Name>) -> Result<(), NoMemory>
    ensures { OnOk result (all.new.items ≡ all.old.items ++ names.now) }
{
    for name in names {
        all.push(name.copy(alloc)?)?;
    }
    Ok(())
}

/// A refusal of the checker as the error of a place: its terms stand under the locals' names and those of the opened binders.
pub fn refusal_at<T: Drop, S: Synth>(
    part: Part<'_, S>,
    locals: &Locals,
    units: &mut u64,
    state: &State,
    at: usize,
    refused: Refused,
) -> Result<T, Ended>
    ensures value { Runs (spec.refusal_at (own.part S.meaning part.entry) locals.now at (tells.refusal refused) units.old (own.state state.now)) result
        units.new (own.state state.now) }
    ensures calm { Calm result }
{
    let Refused { fault, opened } = refused;
    let mut names = Vec::new(part.alloc);
    add_names(part.alloc, locals.names.as_slice(), &mut names)?;
    add_names(part.alloc, opened.as_slice(), &mut names)?;
    fault_at(part, names.as_slice(), units, state, at, fault)
}
