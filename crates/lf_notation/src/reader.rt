//! Names and terms. A term is written as its words, each form before its parts; parentheses are as good as blanks.
use crate::unread::Unread;
use lf_core::{Binder, BinderKind, Expr, Level, Name};
use sqlite_items::Items;
use std::alloc::Global;

// What was read so far, from the right: the words to the left take from the ends.
#[derive(Drop)]
struct Reader {
    alloc: Global,
    terms: Vec<Expr>,
    levels: Vec<Level>,
}

/// The name of these parts, between dots.
pub fn name(alloc: Global, text: &str) -> Result<Name, Unread> {
    let mut parts = text.split('.');
    let first = parts.next().ok_or(Unread::Malformed)?;
    let mut name = Name::one(alloc, first)?;
    for part in parts {
        name = name.child(alloc, part)?;
    }
    Ok(name)
}

/// These names, between blanks.
pub fn names(alloc: Global, text: &str) -> Result<Items<Name>, Unread> {
    let mut all = Items::new(alloc);
    for word in text.split_whitespace() {
        all.push(name(alloc, word)?)?;
    }
    Ok(all)
}

fn number(text: &str) -> Result<u32, Unread> {
    match text.parse::<u32>() {
        Ok(number) => Ok(number),
        Err(_) => Err(Unread::Malformed),
    }
}

// The name between these brackets, if it is written so.
fn between<'a>(text: &'a str, left: char, right: char) -> Option<&'a str> {
    text.strip_prefix(left)
        .map(|inner| inner.trim_end_matches(right))
}

/// The binder that is written so: `x` in parentheses, `{x}` in braces or `[x]` in brackets.
pub fn binder(alloc: Global, text: &str) -> Result<Binder, Unread> {
    if let Some(inner) = between(text, '{', '}') {
        let name = name(alloc, inner)?;
        return Ok(Binder {
            name,
            kind: BinderKind::Implicit,
        });
    }
    if let Some(inner) = between(text, '[', ']') {
        let name = name(alloc, inner)?;
        return Ok(Binder {
            name,
            kind: BinderKind::Inst,
        });
    }
    Ok(Binder {
        name: name(alloc, text)?,
        kind: BinderKind::Explicit,
    })
}

impl Reader {
    fn term(&mut self) -> Result<Expr, Unread> {
        self.terms.pop().ok_or(Unread::Malformed)
    }

    fn level(&mut self) -> Result<Level, Unread> {
        self.levels.pop().ok_or(Unread::Malformed)
    }

    // `number` successors of 0.
    fn numeral(&mut self, number: u32) -> Result<Level, Unread> {
        let mut level = Level::zero(self.alloc)?;
        for _ in 0..number {
            level = Level::succ(self.alloc, level)?;
        }
        Ok(level)
    }

    fn two_levels(&mut self) -> Result<(Level, Level), Unread> {
        let first = self.level()?;
        let second = self.level()?;
        Ok((first, second))
    }

    // A level behind its quote: a number, a parameter `u0`, a metavariable `m0`, `succ`, `max`, `imax`.
    fn level_of(&mut self, word: &str) -> Result<Level, Unread> {
        if word == "succ" {
            let inner = self.level()?;
            return Ok(Level::succ(self.alloc, inner)?);
        }
        if word == "max" {
            let (first, second) = self.two_levels()?;
            return Ok(Level::max(self.alloc, first, second)?);
        }
        if word == "imax" {
            let (first, second) = self.two_levels()?;
            return Ok(Level::imax(self.alloc, first, second)?);
        }
        if let Some(place) = word.strip_prefix('u') {
            return Ok(Level::param(self.alloc, number(place)?)?);
        }
        if let Some(place) = word.strip_prefix('m') {
            return Ok(Level::meta(self.alloc, number(place)?)?);
        }
        self.numeral(number(word)?)
    }

    fn read_level(&mut self, word: &str) -> Result<(), Unread> {
        let level = self.level_of(word)?;
        self.levels.push(level)?;
        Ok(())
    }

    // `@` before a function and an argument, `@3` before a function and three.
    fn application(&mut self, count: &str) -> Result<Expr, Unread> {
        let count = if count.is_empty() { 1 } else { number(count)? };
        let mut f = self.term()?;
        for _ in 0..count {
            let argument = self.term()?;
            f = Expr::app(self.alloc, f, argument)?;
        }
        Ok(f)
    }

    fn two_terms(&mut self) -> Result<(Expr, Expr), Unread> {
        let first = self.term()?;
        let second = self.term()?;
        Ok((first, second))
    }

    fn lambda(&mut self, text: &str) -> Result<Expr, Unread> {
        let (domain, body) = self.two_terms()?;
        let binder = binder(self.alloc, text)?;
        Ok(Expr::lam(self.alloc, binder, domain, body)?)
    }

    fn pi(&mut self, text: &str) -> Result<Expr, Unread> {
        let (domain, body) = self.two_terms()?;
        let binder = binder(self.alloc, text)?;
        Ok(Expr::pi(self.alloc, binder, domain, body)?)
    }

    fn let_in(&mut self, text: &str) -> Result<Expr, Unread> {
        let (ty, value) = self.two_terms()?;
        let body = self.term()?;
        let binder = binder(self.alloc, text)?;
        Ok(Expr::let_in(self.alloc, binder, ty, value, body)?)
    }

    // `P:0` before a term of the structure P.
    fn projection(&mut self, text: &str) -> Result<Expr, Unread> {
        let (structure, field) = text.split_once(':').ok_or(Unread::Malformed)?;
        let inner = self.term()?;
        let structure = name(self.alloc, structure)?;
        Ok(Expr::proj(self.alloc, structure, number(field)?, inner)?)
    }

    // A term applied to itself, and what comes of that again, so many times.
    fn doubled(&mut self, count: &str) -> Result<Expr, Unread> {
        let mut all = self.term()?;
        for _ in 0..number(count)? {
            let same = all.copy(self.alloc)?;
            all = Expr::app(self.alloc, same, all)?;
        }
        Ok(all)
    }

    // A function applied to a term and an argument, and to what comes of that and the same argument, so many times.
    fn chained(&mut self, count: &str) -> Result<Expr, Unread> {
        let (f, mut all) = self.two_terms()?;
        let argument = self.term()?;
        for _ in 0..number(count)? {
            let first = Expr::app(self.alloc, f.copy(self.alloc)?, all)?;
            all = Expr::app(self.alloc, first, argument.copy(self.alloc)?)?;
        }
        Ok(all)
    }

    // A function applied to a term, and again to what comes of that, so many times.
    fn repeated(&mut self, count: &str) -> Result<Expr, Unread> {
        let (f, mut all) = self.two_terms()?;
        for _ in 0..number(count)? {
            let same = f.copy(self.alloc)?;
            all = Expr::app(self.alloc, same, all)?;
        }
        Ok(all)
    }

    fn some_levels(&mut self, count: u32) -> Result<Items<Level>, Unread> {
        let mut all = Items::new(self.alloc);
        for _ in 0..count {
            all.push(self.level()?)?;
        }
        Ok(all)
    }

    // `Nat`, or `Eq/1` before one level.
    fn constant(&mut self, word: &str) -> Result<Expr, Unread> {
        let (text, count) = match word.split_once('/') {
            Some((text, count)) => (text, number(count)?),
            None => (word, 0),
        };
        let levels = self.some_levels(count)?;
        Ok(Expr::constant(self.alloc, name(self.alloc, text)?, levels)?)
    }

    fn universe(&mut self, word: &str) -> Result<Expr, Unread> {
        let level = match word {
            "Prop" => self.numeral(0)?,
            "Type" => self.numeral(1)?,
            _ => self.level()?,
        };
        Ok(Expr::sort(self.alloc, level)?)
    }

    fn variable(&mut self, word: &str) -> Result<Option<Expr>, Unread> {
        if let Some(index) = word.strip_prefix('#') {
            return Ok(Some(Expr::bound(self.alloc, number(index)?)?));
        }
        if let Some(place) = word.strip_prefix('$') {
            return Ok(Some(Expr::free(self.alloc, number(place)?)?));
        }
        if let Some(place) = word.strip_prefix('?') {
            return Ok(Some(Expr::meta(self.alloc, number(place)?)?));
        }
        match word.parse::<u128>() {
            Ok(number) => Ok(Some(Expr::lit(self.alloc, number)?)),
            Err(_) => Ok(None),
        }
    }

    fn under_binder(&mut self, form: &str, rest: &str) -> Result<Expr, Unread> {
        match form {
            "fun" => self.lambda(rest),
            "pi" => self.pi(rest),
            "let" => self.let_in(rest),
            "proj" => self.projection(rest),
            "twice" => self.doubled(rest),
            "chain" => self.chained(rest),
            "times" => self.repeated(rest),
            _ => Err(Unread::Malformed),
        }
    }

    fn compound(&mut self, word: &str) -> Result<Expr, Unread> {
        if let Some(count) = word.strip_prefix('@') {
            return self.application(count);
        }
        if let Some((form, rest)) = word.split_once(':') {
            return self.under_binder(form, rest);
        }
        match word {
            "Prop" | "Type" | "Sort" => self.universe(word),
            _ => self.constant(word),
        }
    }

    fn read_term(&mut self, word: &str) -> Result<(), Unread> {
        let term = match self.variable(word)? {
            Some(term) => term,
            None => self.compound(word)?,
        };
        self.terms.push(term)?;
        Ok(())
    }

    fn read_word(&mut self, word: &str) -> Result<(), Unread> {
        match word.strip_prefix('\'') {
            Some(level) => self.read_level(level),
            None if word.is_empty() => Ok(()),
            None => self.read_term(word),
        }
    }
}

// All words of a text, from the right.
fn read(alloc: Global, text: &str) -> Result<Reader, Unread> {
    let mut reader = Reader {
        alloc,
        terms: Vec::new(alloc),
        levels: Vec::new(alloc),
    };
    for word in text.rsplit([' ', '(', ')']) {
        reader.read_word(word)?;
    }
    Ok(reader)
}

/// These levels, one behind the other. A number behind a quote is a level, as are `'u0` for a parameter, `'m0` for a
/// metavariable, `'succ` before a level, and `'max` and `'imax` before two.
pub fn levels(alloc: Global, text: &str) -> Result<Vec<Level>, Unread> {
    let reader = read(alloc, text)?;
    let mut all = reader.levels;
    all.reverse();
    Ok(all)
}

/// This level.
pub fn level(alloc: Global, text: &str) -> Result<Level, Unread> {
    let mut all = levels(alloc, text)?;
    match all.pop() {
        Some(level) if all.is_empty() => Ok(level),
        _ => Err(Unread::Malformed),
    }
}

/// These terms, one behind the other.
///
/// `#0` is a bound variable by its index, `$0` a free one by its place, `?0` a metavariable, digits a literal; `Prop`,
/// `Type` and `Sort` before a level are sorts. `Nat` is a constant, `Eq/1` one before its level. `@ f a` and `@2 f a b`
/// are applications, `fun:x A b` and `pi:x A B` what they say, with `{x}` for a binder in braces and `[x]` for one in
/// brackets; `let:x A v b`; `proj:P:0 t`; `twice:3 t` is t applied to itself, three times over; `times:3 f t` is
/// f applied to t, three times over, and `chain:3 f a b` is `f (f (f a b) b) b`. Levels are those of `levels`.
pub fn terms(alloc: Global, text: &str) -> Result<Vec<Expr>, Unread> {
    let reader = read(alloc, text)?;
    let mut all = reader.terms;
    all.reverse();
    Ok(all)
}

/// This term.
pub fn term(alloc: Global, text: &str) -> Result<Expr, Unread> {
    let mut all = terms(alloc, text)?;
    match all.pop() {
        Some(term) if all.is_empty() => Ok(term),
        _ => Err(Unread::Malformed),
    }
}
