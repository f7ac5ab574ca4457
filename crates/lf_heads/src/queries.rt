//! The commands that declare nothing and tell something: what they tell behind the elaborated term, and `#print axioms`.
ghost use Rattle.std.specs.Prelude.{◌≡◌, ◌≤◌, ℕ, IfOk};
ghost use Rattle.lf_document.specs.Queries as spec;
ghost use Rattle.lf_heads.specs.Asked as words;
ghost use Rattle.lf_part.specs.Meanings as meanings;
ghost use Rattle.lf_part.specs.Runs.{Runs, Calm, Rose};
ghost use Rattle.lf_part.specs.Values as own;

use crate::kernel::normalize;
use lf_base::Stop;
use lf_core::{Expr, Name, NoMemory};
use lf_forms::locals_put_in;
use lf_msg::{Diagnostic, ElaborationError, Info};
use lf_name::Word;
use lf_part as found;
use lf_part::{
    Ended, Locals, Meaning, Part, State, Synth, ask_if_realized, error, instantiated, meaning_of,
};
use lf_print::print;
use lf_syntax::Ident;

// A term with the locals' names.
fn printed<S: Synth>(part: Part<'_, S>, names: &[Name], term: &Expr) -> Result<Word, NoMemory>
    ensures { IfOk result (λ w. w ≡ words.printed (own.part S.meaning part.entry) names.now term.now) }
{
    let text = print(part.alloc, term, names, part.levels)?;
    Word::new(part.alloc, text.as_str())
}

// What is said of a term and its type.
fn says_checked<S: Synth>(
    part: Part<'_, S>,
    names: &[Name],
    term: &Expr,
    ty: &Expr,
) -> Result<Diagnostic, NoMemory>
    ensures { IfOk result (λ d. d ≡ words.checked (own.part S.meaning part.entry) names.now term.now ty.now) }
{
    let info = Info::Checked {
        term: printed(part, names, term)?,
        ty: printed(part, names, ty)?,
    };
    Ok(Diagnostic::Info(info))
}

/// What `#check` tells: the term and its type, with the locals' names.
#[tactic(auto, using(lf_part::proofs::Runs::halts))]
pub fn checked_under<S: Synth>(
    part: Part<'_, S>,
    locals: &Locals,
    units: &mut u64,
    state: &State,
    term: &Expr,
    ty: &Expr,
) -> Result<Option<Diagnostic>, Ended>
    ensures value { Runs (words.checked_under (own.part S.meaning part.entry) locals.now term.now ty.now units.old (own.state state.now)) result units.new
        (own.state state.now) }
    ensures calm { Calm result }
{
    let term = instantiated(units, state, term)?;
    let ty = instantiated(units, state, ty)?;
    let says = says_checked(part, locals.names.as_slice(), &term, &ty)?;
    drop(term);
    drop(ty);
    Ok(Some(says))
}

/// What `#reduce` tells: the term's normal form, with the locals' names.
#[tactic(auto, using(lf_part::proofs::Runs::halts))]
pub fn reduced_under<S: Synth, P: Stop>(
    part: Part<'_, S>,
    locals: &Locals,
    units: &mut u64,
    state: &State,
    stop: &mut P,
    term: &Expr,
) -> Result<Option<Diagnostic>, Ended>
    ensures value { Runs (words.reduced_under (own.part S.meaning part.entry) part.entry.depth locals.now term.now units.old (own.state state.now)) result
        units.new (own.state state.now) }
    ensures count { P.stops stop.old ≤ P.stops stop.new }
    ensures rose { Rose result (P.stops stop.old) (P.stops stop.new) }
{
    let inner = locals_put_in(part.alloc, locals, units, state)?;
    let Locals { mut types, names } = inner;
    let whole = instantiated(units, state, term)?;
    let form = normalize(part, &mut types, units, stop, &whole)?;
    drop(whole);
    let text = printed(part, names.as_slice(), &form)?;
    drop(form);
    Ok(Some(Diagnostic::Info(Info::Reduced(text))))
}

// The constant that has this meaning.
#[tactic(auto, using(lf_part::proofs::Runs::halts))]
fn constant_by<S: Synth>(
    part: Part<'_, S>,
    state: &mut State,
    x: &Ident,
    meaning: Meaning<'_>,
) -> Result<Name, Ended>
    ensures value { (u : ℕ) → Runs (spec.constant_by (own.part S.meaning part.entry) x.now (meanings.meaning meaning.entry) u (own.state state.old)) result u
        (own.state state.new) }
    ensures calm { Calm result }
{
    match meaning {
        Meaning::Constant(name, _) => {
            ask_if_realized(part.alloc, state, part.view, &name)?;
            Ok(name)
        }
        Meaning::OwnType(name) => Ok(name),
        Meaning::Nothing => {
            let name = x.name.copy(part.alloc)?;
            let says = ElaborationError::UnknownIdentifier(name);
            Err(error(x.at, found::Diagnostic::Elaboration(says)))
        }
        Meaning::Waits(key) => Err(Ended::Need(key)),
    }
}

// The constant that the identifier stands for where there are no locals.
fn constant_of<S: Synth>(part: Part<'_, S>, state: &mut State, x: &Ident) -> Result<Name, Ended>
    ensures value { (u : ℕ) → Runs (spec.constant_of (own.part S.meaning part.entry) x.now u (own.state state.old)) result u (own.state state.new) }
    ensures calm { Calm result }
{
    let meaning = meaning_of(part, &x.name)?;
    constant_by(part, state, x, meaning)
}
