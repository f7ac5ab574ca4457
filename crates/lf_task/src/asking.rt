//! The realized names that stand in what a head or a body makes are asked for: constant by constant, the type before the
//! value, from the left.
ghost use Rattle.std.specs.Prelude.{◌≡◌, ◌∷◌, [], OnOk, option_copied};
ghost use Rattle.lf_core.specs.Term.{Path};
ghost use Rattle.lf_elaboration.specs.Axioms.{names_in};
ghost use Rattle.lf_document.specs.Asking as spec;
ghost use Rattle.lf_document.specs.Task as tasks;
ghost use Rattle.lf_rules.specs.Recursor.{is_among};
ghost use Rattle.lf_task.specs.Tasks.{Does, names_of_one};

use crate::ending::Halted;
use crate::log::Log;
use crate::made::{Header, Made, Valued};
use lf_core::{ConstInfo, Expr, ExprNode, Name, NoMemory, TaskKey};
use lf_env::{Lookup, View};
use std::alloc::Global;

fn is_among(name: &Name, names: &[Name]) -> bool
    ensures { result ≡ is_among name.now names.now }
{
    for other in names {
        if name.is(other) {
            return true;
        }
    }
    false
}

// Each name is asked for once.
fn ask(alloc: Global, log: &mut Log, name: &Name) -> Result<(), NoMemory>
    ensures { OnOk result (log.new ≡ spec.asked_in name.now log.old) }
{
    if is_among(name, log.asked.as_slice()) {
        return Ok(());
    }
    log.asked.push(name.copy(alloc)?)?;
    Ok(())
}

// A constant that is no entry was made when it was asked for. A name that the view doesn't know is one that the command
// itself makes.
fn ask_name(alloc: Global, view: &View, log: &mut Log, name: &Name) -> Result<(), Halted>
    ensures { Does (spec.ask_all view.now (name.now ∷ []) log.old) result log.new }
{
    match view.lookup(name) {
        Lookup::Found(_) => {
            if view.placed(name).is_none() {
                ask(alloc, log, name)?;
            }
            Ok(())
        }
        Lookup::Absent => Ok(()),
        Lookup::NeedBody(position) => Err(Halted::Need(TaskKey::Body(position))),
        Lookup::NeedReal => Err(Halted::Need(TaskKey::Real(name.copy(alloc)?))),
    }
}

#[tactic(auto, using(crate::proofs::Asked::both, crate::proofs::Asked::first_needs, crate::proofs::Asked::three, crate::proofs::Asked::second_needs))]
fn ask_term(alloc: Global, view: &View, log: &mut Log, term: &Expr) -> Result<(), Halted>
    ensures { Does (spec.ask_all view.now (names_in term.now) log.old) result log.new }
{
    match term.node() {
        ExprNode::Const(name, _) => ask_name(alloc, view, log, name),
        ExprNode::App(f, a) => {
            ask_term(alloc, view, log, f)?;
            ask_term(alloc, view, log, a)
        }
        ExprNode::Lam(_, a, b) | ExprNode::Pi(_, a, b) => {
            ask_term(alloc, view, log, a)?;
            ask_term(alloc, view, log, b)
        }
        ExprNode::Let(_, a, v, b) => {
            ask_term(alloc, view, log, a)?;
            ask_term(alloc, view, log, v)?;
            ask_term(alloc, view, log, b)
        }
        ExprNode::Proj(structure, _, t) => {
            ask_name(alloc, view, log, structure)?;
            ask_term(alloc, view, log, t)
        }
        ExprNode::Bound(_)
        | ExprNode::Free(_)
        | ExprNode::Meta(_)
        | ExprNode::Sort(_)
        | ExprNode::Lit(_) => Ok(()),
    }
}

// The names of the term, where there is one.
fn ask_value(alloc: Global, view: &View, log: &mut Log, term: Option<&Expr>) -> Result<(), Halted>
    ensures { Does (spec.ask_all view.now (spec.names_of_value (option_copied term.entry)) log.old) result log.new }
{
    match term {
        Some(term) => ask_term(alloc, view, log, term),
        None => Ok(()),
    }
}

// The names of a constant's type and of its value.
#[tactic(auto, using(crate::proofs::Asked::both, crate::proofs::Asked::first_needs))]
fn ask_constant(
    alloc: Global,
    view: &View,
    log: &mut Log,
    constant: &ConstInfo,
) -> Result<(), Halted>
    ensures { Does (spec.ask_all view.now (names_of_one constant.now) log.old) result log.new }
{
    ask_term(alloc, view, log, &constant.ty)?;
    ask_value(alloc, view, log, constant.value.as_ref())
}

// The constants, each with its type and its value.
#[tactic(auto, using(crate::proofs::Asked::next_constant, crate::proofs::Asked::constant_needs))]
fn ask_constants(
    alloc: Global,
    view: &View,
    log: &mut Log,
    constants: &[ConstInfo],
) -> Result<(), Halted>
    ensures { Does (spec.ask_all view.now (spec.names_of_constants constants.now) log.old) result log.new }
{
    for constant in constants {
        ask_constant(alloc, view, log, constant)?;
    }
    Ok(())
}

fn ask_header(
    alloc: Global,
    view: &View,
    log: &mut Log,
    header: Option<&Header>,
) -> Result<(), Halted>
    ensures { Does (spec.ask_all view.now (spec.names_of_header (option_copied header.entry)) log.old) result log.new }
{
    match header {
        Some(header) => ask_term(alloc, view, log, &header.info.ty),
        None => Ok(()),
    }
}

fn ask_body(alloc: Global, view: &View, log: &mut Log, value: Option<&Valued>) -> Result<(), Halted>
    ensures { Does (spec.ask_all view.now (spec.names_of_body (option_copied value.entry)) log.old) result log.new }
{
    match value {
        Some(value) => ask_term(alloc, view, log, &value.term),
        None => Ok(()),
    }
}

/// The realized names that stand in the types and values of what was made are asked for, behind those that were asked for
/// already, each once. Need comes at the first name that isn't resolved in the view.
#[tactic(auto, using(crate::proofs::Asked::first_needs, crate::proofs::Asked::three, crate::proofs::Asked::second_needs))]
pub fn ask_for(alloc: Global, view: &View, log: &mut Log, made: &Made) -> Result<(), Halted>
    ensures { Does (spec.ask_for view.now made.now log.old) result log.new }
{
    ask_header(alloc, view, log, made.header.as_ref())?;
    ask_constants(alloc, view, log, made.entries.as_slice())?;
    ask_body(alloc, view, log, made.value.as_ref())
}
