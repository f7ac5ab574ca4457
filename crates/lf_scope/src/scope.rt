//! Scopes.
ghost use Rattle.std.specs.Prelude.{◌≡◌, ◌++◌, ◌∷◌, [], true, false, IfOk, if◌then◌else◌, map, option_copied};
ghost use Rattle.lf_syntax.specs.TermNode.{binders_tree};
ghost use Rattle.lf_elaboration.specs.Scope.{start, names_of, declared_name, entered, with_namespace, left, closes, name_of};
ghost use Rattle.lf_elaboration.specs.Scope.{is_mismatched_end, scope_after, first_prefix, candidates_of};
ghost use Rattle.lf_elaboration.specs.Variables.{variables_of, variables_taken, level_names};
ghost use Rattle.lf_scope.specs.View.{path_of, holding_of, scope_of};

use crate::chain::{Chain, in_order};
use crate::declared::{name_list, variable_list};
use crate::holding::{Enclosing, Holding, copy_name, ident_name, same_ending};
use crate::names::{add_opened, add_prefixed, joined};
use lf_base::NoMemory;
use lf_elaboration::Variable;
use lf_name::{Name, Word};
use lf_syntax::{Binders, Command, Ident, Shared};
use lf_variables::{header_references, level_names, taken, with_types};
use std::alloc::Global;
use std::marker::Model;

/// The scope of a place: a function of the commands before it. What it has in common with the scope before is shared.
/// Contracts see the definition's `Scope`.
#[derive(Drop)]
pub struct Scope {
    holding: Holding,
    /// The innermost last.
    enclosing: Chain<Enclosing>,
    classes: Chain<Name>,
    instances: Chain<Name>,
}

impl Model for Scope {
    ghost use Rattle.std.specs.Coded.{codes};
    ghost use Rattle.lf_elaboration.specs.Scope as scope;
    ghost use Rattle.lf_scope.specs.Codes.{coded_binders};
    ghost use Rattle.lf_scope.specs.View.{scope_of};

    ghost Value = { scope.Scope };

    ghost coded = { Prim.hlevel (codes, coded_binders) };

    ghost view = { λ s. scope_of s.holding s.enclosing s.classes s.instances };
}

impl Scope {
    /// The scope before the first command.
    pub fn start() -> Scope
        ensures { result ≡ start }
    {
        Scope {
            holding: Holding::start(),
            enclosing: Chain::new(),
            classes: Chain::new(),
            instances: Chain::new(),
        }
    }

    /// An equal scope, which shares all that it keeps.
    pub fn copy(&self, alloc: Global) -> Result<Scope, NoMemory>
        ensures { IfOk result (λ s. s ≡ self.now) }
    {
        Ok(Scope {
            holding: self.holding.copy(alloc)?,
            enclosing: self.enclosing.copy(alloc)?,
            classes: self.classes.copy(alloc)?,
            instances: self.instances.copy(alloc)?,
        })
    }

    /// The namespace; None where it is empty.
    pub fn namespace(&self) -> Option<&Name>
        ensures { path_of (option_copied result) ≡ self.now.holding.namespace }
    {
        self.holding.namespace.as_ref()
    }

    /// The universe names, in order.
    pub fn universes(&self, alloc: Global) -> Result<Vec<Name>, NoMemory>
        ensures { IfOk result (λ all. all.items ≡ self.now.holding.universes) }
    {
        name_list(alloc, &self.holding.universes)
    }

    /// The variables, each of a group by itself, in order.
    pub fn variables(&self, alloc: Global) -> Result<Vec<Variable>, NoMemory>
        ensures { IfOk result (λ all. all.items ≡ variables_of self.now) }
    {
        variable_list(alloc, &self.holding.variables)
    }

    /// The declared names of classes, in order; no `end` gives them up.
    pub fn classes(&self, alloc: Global) -> Result<Vec<Name>, NoMemory>
        ensures { IfOk result (λ all. all.items ≡ self.now.classes) }
    {
        in_order(alloc, &self.classes)
    }

    /// The declared names of instances, in order; no `end` gives them up.
    pub fn instances(&self, alloc: Global) -> Result<Vec<Name>, NoMemory>
        ensures { IfOk result (λ all. all.items ≡ self.now.instances) }
    {
        in_order(alloc, &self.instances)
    }

    fn namespace_parts(&self) -> &[Word]
        ensures { result.now ≡ self.now.holding.namespace }
    {
        match &self.holding.namespace {
            None => &[],
            Some(name) => name.parts(),
        }
    }

    /// The namespace followed by the written name.
    pub fn declared_name(&self, alloc: Global, name: &Name) -> Result<Name, NoMemory>
        ensures { IfOk result (λ n. n ≡ declared_name self.now name.now) }
    {
        joined(alloc, self.namespace_parts(), name)
    }

    /// This scope with what is given in place of what holds.
    fn holding_this(&self, alloc: Global, holding: Holding) -> Result<Scope, NoMemory>
        ensures { IfOk result (λ s. s ≡ record self.now { holding = holding_of holding }) }
    {
        Ok(Scope {
            holding,
            enclosing: self.enclosing.copy(alloc)?,
            classes: self.classes.copy(alloc)?,
            instances: self.instances.copy(alloc)?,
        })
    }

    /// A scope within this one, which an `end` of this name closes, and in which `holding` holds.
    #[tactic(auto, using(crate::proofs::Lists::innermost))]
    fn entered(
        &self,
        alloc: Global,
        closed_by: Option<Name>,
        holding: Holding,
    ) -> Result<Scope, NoMemory>
        ensures { IfOk result (λ s. s ≡ record (entered closed_by self.now) { holding = holding_of holding }) }
    {
        let before = self.holding.copy(alloc)?;
        Ok(Scope {
            holding,
            enclosing: self.enclosing.push(alloc, Enclosing { closed_by, before })?,
            classes: self.classes.copy(alloc)?,
            instances: self.instances.copy(alloc)?,
        })
    }

    fn in_namespace(&self, alloc: Global, name: &Name) -> Result<Scope, NoMemory>
        ensures { IfOk result (λ s. s ≡ with_namespace name.now (entered (Some name.now) self.now)) }
    {
        let mut holding = self.holding.copy(alloc)?;
        holding.namespace = Some(self.declared_name(alloc, name)?);
        self.entered(alloc, Some(name.copy(alloc)?), holding)
    }

    fn in_section(&self, alloc: Global, name: &Option<Ident>) -> Result<Scope, NoMemory>
        ensures { IfOk result (λ s. s ≡ entered (name_of name.now) self.now) }
    {
        self.entered(alloc, ident_name(alloc, name)?, self.holding.copy(alloc)?)
    }

    /// The scope before the innermost one, which it enclosed.
    fn left(
        &self,
        alloc: Global,
        enclosing: &Chain<Enclosing>,
        innermost: &Enclosing,
    ) -> Result<Scope, NoMemory>
        ensures { IfOk result (λ s. s ≡ scope_of innermost.now.before enclosing.now self.now.classes self.now.instances) }
    {
        Ok(Scope {
            holding: innermost.before.copy(alloc)?,
            enclosing: enclosing.copy(alloc)?,
            classes: self.classes.copy(alloc)?,
            instances: self.instances.copy(alloc)?,
        })
    }

    /// The scope after an `end`, and whether that is mismatched.
    #[tactic(auto, using(crate::proofs::Lists::innermost))]
    fn ended(&self, alloc: Global, name: &Option<Ident>) -> Result<(Scope, bool), NoMemory>
        ensures { IfOk result (λ r. let closed = closes (name_of name.now) self.now.enclosing in
            (r.0 ≡ (if closed then left self.now self.now.enclosing else self.now)) × (r.1 ≡ (if closed then false else true))) }
    {
        match self.enclosing.split() {
            None => Ok((self.copy(alloc)?, true)),
            Some((enclosing, innermost)) => {
                if same_ending(&innermost.closed_by, name) {
                    Ok((self.left(alloc, enclosing, innermost)?, false))
                } else {
                    Ok((self.copy(alloc)?, true))
                }
            }
        }
    }

    #[tactic(auto, using(crate::proofs::Lists::flat_map_push))]
    fn opening(&self, alloc: Global, names: &Shared<Ident>) -> Result<Scope, NoMemory>
        ensures { IfOk result (λ s. s
            ≡ record self.now { holding = record self.now.holding { opened = self.now.holding.opened ++ names_of names.now } }) }
    {
        let mut holding = self.holding.copy(alloc)?;
        holding.opened = holding.opened.push(alloc, names.copy(alloc)?)?;
        self.holding_this(alloc, holding)
    }

    #[tactic(auto, using(crate::proofs::Lists::flat_map_push))]
    fn with_universes(&self, alloc: Global, names: &Shared<Ident>) -> Result<Scope, NoMemory>
        ensures { IfOk result (λ s. s
            ≡ record self.now { holding = record self.now.holding { universes = self.now.holding.universes ++ names_of names.now } }) }
    {
        let mut holding = self.holding.copy(alloc)?;
        holding.universes = holding.universes.push(alloc, names.copy(alloc)?)?;
        self.holding_this(alloc, holding)
    }

    #[tactic(auto, using(crate::proofs::Lists::flat_map_push))]
    fn with_variables(&self, alloc: Global, groups: &Shared<Binders>) -> Result<Scope, NoMemory>
        ensures { IfOk result (λ s. s
            ≡ record self.now { holding = record self.now.holding { variables = self.now.holding.variables ++ map binders_tree groups.now } }) }
    {
        let mut holding = self.holding.copy(alloc)?;
        holding.variables = holding.variables.push(alloc, groups.copy(alloc)?)?;
        self.holding_this(alloc, holding)
    }

    fn with_class(&self, alloc: Global, name: &Name) -> Result<Scope, NoMemory>
        ensures { IfOk result (λ s. s ≡ record self.now { classes = self.now.classes ++ declared_name self.now name.now ∷ [] }) }
    {
        let class = self.declared_name(alloc, name)?;
        Ok(Scope {
            holding: self.holding.copy(alloc)?,
            enclosing: self.enclosing.copy(alloc)?,
            classes: self.classes.push(alloc, class)?,
            instances: self.instances.copy(alloc)?,
        })
    }

    fn with_instance(&self, alloc: Global, name: &Name) -> Result<Scope, NoMemory>
        ensures { IfOk result (λ s. s ≡ record self.now { instances = self.now.instances ++ declared_name self.now name.now ∷ [] }) }
    {
        let instance = self.declared_name(alloc, name)?;
        Ok(Scope {
            holding: self.holding.copy(alloc)?,
            enclosing: self.enclosing.copy(alloc)?,
            classes: self.classes.copy(alloc)?,
            instances: self.instances.push(alloc, instance)?,
        })
    }

    /// The scope after the command, and whether that is a mismatched `end`, which leaves the scope as it was. The scope
    /// costs what the command adds. `NoMemory` is the one fault.
    pub fn after(&self, alloc: Global, command: &Command) -> Result<(Scope, bool), NoMemory>
        ensures { IfOk result (λ r. (r.0 ≡ scope_after self.now command.now) × (r.1 ≡ is_mismatched_end self.now command.now)) }
    {
        match command {
            Command::Namespace { name, .. } => Ok((self.in_namespace(alloc, &name.name)?, false)),
            Command::Section { name, .. } => Ok((self.in_section(alloc, name)?, false)),
            Command::End { name, .. } => self.ended(alloc, name),
            Command::OpenNames { names, .. } => Ok((self.opening(alloc, names)?, false)),
            Command::Universe { names, .. } => Ok((self.with_universes(alloc, names)?, false)),
            Command::Variable { binders, .. } => Ok((self.with_variables(alloc, binders)?, false)),
            Command::Class { decl, .. } => Ok((self.with_class(alloc, &decl.name.name)?, false)),
            Command::Instance { decl, .. } => {
                Ok((self.with_instance(alloc, &decl.name.name)?, false))
            }
            Command::Axiom(_)
            | Command::Def { .. }
            | Command::Equations { .. }
            | Command::Theorem { .. }
            | Command::Inductive { .. }
            | Command::Structure { .. }
            | Command::Check { .. }
            | Command::Reduce { .. }
            | Command::PrintAxioms { .. }
            | Command::Bad { .. } => Ok((self.copy(alloc)?, false)),
        }
    }

    /// The longest prefix that is tried: in a value the declared name, elsewhere the namespace.
    fn first_prefix<'a>(&'a self, inside: Option<&'a Name>) -> &'a [Word]
        ensures { result.now ≡ first_prefix self.now (option_copied inside.entry) }
    {
        match inside {
            None => self.namespace_parts(),
            Some(declared) => declared.parts(),
        }
    }

    /// The constants that an identifier may stand for, in the order in which they are tried: behind each prefix, the
    /// longest first, and then behind each opened name, the latest first. `inside` is the declared name in a value, and
    /// None in a header and for a command without a name. `NoMemory` is the one fault.
    pub fn candidates(
        &self,
        alloc: Global,
        ident: &Name,
        inside: Option<&Name>,
    ) -> Result<Vec<Name>, NoMemory>
        ensures { IfOk result (λ all. all.items ≡ candidates_of self.now (option_copied inside.entry) ident.now) }
    {
        let mut all = Vec::new(alloc);
        add_prefixed(alloc, self.first_prefix(inside), ident, &mut all)?;
        add_opened(alloc, &self.holding.opened, ident, &mut all)?;
        Ok(all)
    }

    /// The variables that the command takes, in order; they come before its written binders. `NoMemory` is the one
    /// fault.
    pub fn variables_taken(
        &self,
        alloc: Global,
        command: &Command,
    ) -> Result<Vec<Variable>, NoMemory>
        ensures { IfOk result (λ all. all.items ≡ variables_taken self.now command.now) }
    {
        let header = header_references(alloc, command)?;
        let variables = self.variables(alloc)?;
        taken(alloc, &variables, &header)
    }

    /// The level names of the command: those written, and then the universe names to which it refers, in order, each
    /// once. `taken` are the variables that it takes. `NoMemory` is the one fault.
    pub fn level_names(
        &self,
        alloc: Global,
        written: &[Ident],
        command: &Command,
        taken: &[Variable],
    ) -> Result<Vec<Name>, NoMemory>
        requires { taken.now ≡ variables_taken self.now command.now }
        ensures { IfOk result (λ all. all.items ≡ level_names self.now (names_of written.now) command.now) }
    {
        let header = header_references(alloc, command)?;
        let references = with_types(alloc, &header, taken)?;
        let universes = self.universes(alloc)?;
        level_names(alloc, written, &universes, &references)
    }
}
