//! Constants, declarations, keys of tasks and suffixes.
use crate::fault::Fault;
use crate::row::{Row, truth};
use crate::terms::shown;
use lf_core::{ConstInfo, ConstKind, CtorInfo, Detail, Expr, IndDecl, Name, Suffix, TaskKey};
use lf_notation::{names, written_name};
use sqlite_items::Items;
use std::alloc::Global;

fn kind(text: &str) -> Result<ConstKind, Fault> {
    match text {
        "axiom" => Ok(ConstKind::Axiom),
        "definition" => Ok(ConstKind::Def),
        "theorem" => Ok(ConstKind::Theorem),
        "inductive" => Ok(ConstKind::Inductive),
        "constructor" => Ok(ConstKind::Constructor),
        "recursor" => Ok(ConstKind::Recursor),
        _ => Err(Fault::Malformed),
    }
}

fn value(alloc: Global, text: &str) -> Result<Option<Expr>, Fault> {
    if text.is_empty() {
        return Ok(None);
    }
    Ok(Some(lf_notation::term(alloc, text)?))
}

// A detail that such a constant may have: all that it names is `name`, and its one rule is `rule`.
fn detail(alloc: Global, kind: ConstKind, name: &Name, rule: &Expr) -> Result<Detail, Fault> {
    match kind {
        ConstKind::Axiom | ConstKind::Def | ConstKind::Theorem => Ok(Detail::Plain),
        ConstKind::Inductive => {
            let mut ctors = Items::new(alloc);
            ctors.push(name.copy(alloc)?)?;
            Ok(Detail::Ind {
                params: 1,
                indices: 2,
                ctors,
                large: true,
            })
        }
        ConstKind::Constructor => Ok(Detail::Ctor {
            ind: name.copy(alloc)?,
            index: 1,
            params: 2,
            fields: 3,
        }),
        ConstKind::Recursor => {
            let mut rules = Items::new(alloc);
            rules.push(rule.copy(alloc)?)?;
            Ok(Detail::Rec {
                ind: name.copy(alloc)?,
                params: 1,
                minors: 2,
                indices: 3,
                rules,
            })
        }
    }
}

// Names with blanks between them.
fn shown_names(alloc: Global, names: &[Name]) -> Result<String, Fault> {
    let mut text = String::new(alloc);
    for name in names {
        if !text.is_empty() {
            text.push(' ')?;
        }
        text.push_str(written_name(alloc, name)?.as_str())?;
    }
    Ok(text)
}

// Terms with commas between them.
fn shown_terms(alloc: Global, terms: &[Expr]) -> Result<String, Fault> {
    let mut text = String::new(alloc);
    for term in terms {
        if !text.is_empty() {
            text.push_str(", ")?;
        }
        text.push_str(shown(alloc, term)?.as_str())?;
    }
    Ok(text)
}

fn shown_detail(alloc: Global, detail: &Detail) -> Result<String, Fault> {
    match detail {
        Detail::Plain => Ok(String::from_str(alloc, "plain")?),
        Detail::Ind {
            params,
            indices,
            ctors,
            large,
        } => {
            let ctors = shown_names(alloc, ctors.as_slice())?;
            Ok(format!(in alloc; "{params} parameters, {indices} indices, {ctors}, large {large}")?)
        }
        Detail::Ctor {
            ind,
            index,
            params,
            fields,
        } => {
            let ind = written_name(alloc, ind)?;
            Ok(format!(in alloc; "of {ind} at {index}, {params} parameters, {fields} fields")?)
        }
        Detail::Rec {
            ind,
            params,
            minors,
            indices,
            rules,
        } => {
            let ind = written_name(alloc, ind)?;
            let rules = shown_terms(alloc, rules.as_slice())?;
            Ok(format!(in alloc;
                "of {ind}, {params} parameters, {minors} minors, {indices} indices, {rules}"
            )?)
        }
    }
}

fn shown_value(alloc: Global, value: &Option<Expr>) -> Result<String, Fault> {
    match value {
        Some(value) => shown(alloc, value),
        None => Ok(String::from_str(alloc, "no value")?),
    }
}

fn shown_constant(alloc: Global, info: &ConstInfo) -> Result<String, Fault> {
    let kind = info.kind;
    let name = written_name(alloc, &info.name)?;
    let levels = shown_names(alloc, info.levels.as_slice())?;
    let ty = shown(alloc, &info.ty)?;
    let value = shown_value(alloc, &info.value)?;
    let height = info.height;
    let detail = shown_detail(alloc, &info.detail)?;
    Ok(format!(in alloc;
        "{kind:?} {name}.{{{levels}}} : {ty}; {value}; height {height}; {detail}"
    )?)
}

// The kind, the name, the names of levels, the type, the value (or nothing) and the height.
fn constant(row: &mut Row<'_>) -> Result<ConstInfo, Fault> {
    let alloc = row.alloc;
    let kind = kind(row.text()?)?;
    let name = row.name()?;
    let levels = names(alloc, row.text()?)?;
    let ty = row.term()?;
    let value = value(alloc, row.text()?)?;
    let height = row.place()?;
    let detail = detail(alloc, kind, &name, &ty)?;
    Ok(ConstInfo {
        name,
        kind,
        levels,
        ty,
        value,
        height,
        detail,
    })
}

fn copy(row: &mut Row<'_>) -> Result<String, Fault> {
    let info = constant(row)?;
    let copy = info.copy(row.alloc)?;
    shown_constant(row.alloc, &copy)
}

// The name, the names of levels, the number of parameters, the type, and a constructor with its type.
fn declaration(row: &mut Row<'_>) -> Result<IndDecl, Fault> {
    let alloc = row.alloc;
    let name = row.name()?;
    let levels = names(alloc, row.text()?)?;
    let params = row.place()?;
    let ty = row.term()?;
    let mut ctors = Items::new(alloc);
    ctors.push(CtorInfo {
        name: row.name()?,
        ty: row.term()?,
    })?;
    Ok(IndDecl {
        name,
        levels,
        params,
        ty,
        ctors,
    })
}

fn shown_constructors(alloc: Global, ctors: &[CtorInfo]) -> Result<String, Fault> {
    let mut text = String::new(alloc);
    for ctor in ctors {
        let name = written_name(alloc, &ctor.name)?;
        let ty = shown(alloc, &ctor.ty)?;
        write!(text, "; {name} : {ty}")?;
    }
    Ok(text)
}

fn copied_declaration(row: &mut Row<'_>) -> Result<String, Fault> {
    let decl = declaration(row)?;
    let alloc = row.alloc;
    let copy = decl.copy(alloc)?;
    let name = written_name(alloc, &copy.name)?;
    let levels = shown_names(alloc, copy.levels.as_slice())?;
    let params = copy.params;
    let ty = shown(alloc, &copy.ty)?;
    let ctors = shown_constructors(alloc, copy.ctors.as_slice())?;
    Ok(format!(in alloc; "{name}.{{{levels}}} of {params} : {ty}{ctors}")?)
}

fn key(row: &mut Row<'_>) -> Result<TaskKey, Fault> {
    match row.text()? {
        "head" => Ok(TaskKey::Head(row.place()?)),
        "body" => Ok(TaskKey::Body(row.place()?)),
        "realized" => Ok(TaskKey::Real(row.name()?)),
        _ => Err(Fault::Malformed),
    }
}

fn copied_key(row: &mut Row<'_>) -> Result<String, Fault> {
    let key = key(row)?;
    match key.copy(row.alloc)? {
        TaskKey::Head(at) => Ok(format!(in row.alloc; "head {at}")?),
        TaskKey::Body(at) => Ok(format!(in row.alloc; "body {at}")?),
        TaskKey::Real(name) => {
            let name = written_name(row.alloc, &name)?;
            Ok(format!(in row.alloc; "realized {name}")?)
        }
    }
}

fn suffix(row: &mut Row<'_>) -> Result<String, Fault> {
    match Suffix::of(row.text()?) {
        Some(suffix) => Ok(format!(in row.alloc; "{suffix:?}")?),
        None => Ok(String::from_str(row.alloc, "none")?),
    }
}

fn fits(row: &mut Row<'_>) -> Result<String, Fault> {
    let suffix = Suffix::of(row.text()?).ok_or(Fault::Malformed)?;
    let kind = kind(row.text()?)?;
    truth(row.alloc, suffix.fits(kind.copy(row.alloc)?))
}

pub fn answer(call: &str, row: &mut Row<'_>) -> Result<String, Fault> {
    match call {
        "copy" => copy(row),
        "declaration" => copied_declaration(row),
        "key" => copied_key(row),
        "suffix" => suffix(row),
        "fits" => fits(row),
        _ => Err(Fault::Malformed),
    }
}
