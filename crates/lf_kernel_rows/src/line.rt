//! What the lines mean.
use crate::fields::Fields;
use crate::place::Change;
use crate::recursor::Shown;
use crate::spending::spent;
use crate::wanted::wanted;
use lf_asking::{Addition, Call, Known, Question, Row};
use lf_notation::{Declaration, Unread};

/// What a line means.
#[derive(Clone, Copy)]
pub enum Line<'a> {
    Heading,
    Change(Change<'a>),
    Row(Row<'a>),
    /// What the recursor of a declaration is to look like.
    Recursor(Declaration<'a>, Shown<'a>),
}

fn known<'a>(known: Known<'a>) -> Line<'a> {
    Line::Change(Change::Put(known))
}

fn axiom<'a>(fields: &mut Fields<'a>) -> Result<Line<'a>, Unread> {
    let name = fields.text()?;
    let levels = fields.text()?;
    let ty = fields.text()?;
    Ok(known(Known::Axiom { name, levels, ty }))
}

fn axioms<'a>(fields: &mut Fields<'a>) -> Result<Line<'a>, Unread> {
    let count = fields.number()?;
    let stem = fields.text()?;
    let ty = fields.text()?;
    Ok(Line::Change(Change::Axioms { count, stem, ty }))
}

fn definition<'a>(fields: &mut Fields<'a>) -> Result<Line<'a>, Unread> {
    let name = fields.text()?;
    let ty = fields.text()?;
    let value = fields.text()?;
    let height = fields.number()?;
    Ok(known(Known::Def {
        name,
        ty,
        value,
        height,
    }))
}

fn row<'a>(
    fields: &mut Fields<'a>,
    context: &'a str,
    question: Question<'a>,
) -> Result<Line<'a>, Unread> {
    let spending = spent(fields.text()?)?;
    let wanted = wanted(fields)?;
    Ok(Line::Row(Row {
        question,
        context,
        budget: spending.budget,
        asking: spending.asking,
        wanted,
    }))
}

fn call<'a>(fields: &mut Fields<'a>, call: Call) -> Result<Line<'a>, Unread> {
    let context = fields.text()?;
    let of = fields.text()?;
    row(fields, context, Question::Of(call, of))
}

fn add<'a>(fields: &mut Fields<'a>, addition: Addition<'a>) -> Result<Line<'a>, Unread> {
    row(fields, "", Question::Add(addition))
}

fn header<'a>(fields: &mut Fields<'a>) -> Result<Line<'a>, Unread> {
    let name = fields.text()?;
    let ty = fields.text()?;
    add(fields, Addition::Header(name, ty))
}

fn theorem<'a>(fields: &mut Fields<'a>) -> Result<Line<'a>, Unread> {
    let name = fields.text()?;
    let ty = fields.text()?;
    let value = fields.text()?;
    add(fields, Addition::Theorem(name, ty, value))
}

fn inductive<'a>(fields: &mut Fields<'a>) -> Result<Line<'a>, Unread> {
    let written = fields.declaration()?;
    add(fields, Addition::Inductive(written))
}

fn whole<'a>(fields: &mut Fields<'a>) -> Result<Line<'a>, Unread> {
    let written = fields.declaration()?;
    let name = fields.text()?;
    let ty = fields.text()?;
    let rules = fields.text()?;
    Ok(Line::Recursor(written, Shown::Whole { name, ty, rules }))
}

fn printed_type<'a>(fields: &mut Fields<'a>) -> Result<Line<'a>, Unread> {
    let written = fields.declaration()?;
    let text = fields.text()?;
    Ok(Line::Recursor(written, Shown::Type(text)))
}

fn printed_rule<'a>(fields: &mut Fields<'a>) -> Result<Line<'a>, Unread> {
    let written = fields.declaration()?;
    let index = fields.number()?;
    let text = fields.text()?;
    Ok(Line::Recursor(written, Shown::Rule(index, text)))
}

fn change<'a>(fields: &mut Fields<'a>, word: &str) -> Result<Line<'a>, Unread> {
    match word {
        "view" => Ok(Line::Change(Change::Begin)),
        "put at" => Ok(Line::Change(Change::PutAt(fields.number()?))),
        "read at" => Ok(Line::Change(Change::ReadAt(fields.number()?))),
        "axiom" => axiom(fields),
        "axioms" => axioms(fields),
        "def" => definition(fields),
        "inductive" => Ok(known(Known::Inductive(fields.declaration()?))),
        _ => Err(Unread::Malformed),
    }
}

fn asked<'a>(fields: &mut Fields<'a>, word: &str) -> Result<Line<'a>, Unread> {
    match word {
        "whnf" => call(fields, Call::Whnf),
        "equal" => call(fields, Call::Equal),
        "infer" => call(fields, Call::Infer),
        "infer_unchecked" => call(fields, Call::Unchecked),
        "nf" => call(fields, Call::Nf),
        "add_header" => header(fields),
        "add_decl" => theorem(fields),
        "add_inductive" => inductive(fields),
        _ => change(fields, word),
    }
}

fn worded<'a>(fields: &mut Fields<'a>) -> Result<Line<'a>, Unread> {
    let word = fields.text()?;
    match word {
        "recursor" => whole(fields),
        "recursor type" => printed_type(fields),
        "recursor rule" => printed_rule(fields),
        _ => asked(fields, word),
    }
}

/// What a line means: nothing where it is empty or begins with `#`.
pub fn read<'a>(text: &'a str) -> Result<Line<'a>, Unread> {
    if text.is_empty() || text.starts_with('#') {
        return Ok(Line::Heading);
    }
    let mut fields = Fields::new(text);
    let line = worded(&mut fields)?;
    fields.end()?;
    Ok(line)
}
