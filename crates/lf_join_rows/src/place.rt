//! What was written down so far.
ghost use Rattle.std.specs.Prelude.{IsTrue, All};
ghost use Rattle.std.specs.Str.{IsCharBoundary};

use crate::fields::{Fields, lines};
use crate::values::{Real, Values};
use lf_core::{Level, Name, NoMemory, TaskKey};
use lf_join::{Joined, join, report};
use lf_msg::{Diagnostic, Info, Message};
use lf_name::Word;
use lf_notation::{Unread, name};
use lf_parse_cmd::parse;
use lf_part::Ended;
use lf_task::{
    Header, Judged, Log, Made, Plan, TaskValue, Valued, begin_part, end_part, rank, refuses,
    value_of,
};
use lf_text::Text;
use std::alloc::Global;

/// A task: what it made, and what it told.
#[derive(Drop)]
pub struct Draft {
    pub made: Made,
    pub log: Log,
}

/// A text's tasks so far.
#[derive(Drop)]
pub struct Place {
    alloc: Global,
    values: Values,
    heads: Vec<Draft>,
    bodies: Vec<Draft>,
}

fn nothing_made(alloc: Global) -> Made {
    Made {
        header: None,
        entries: Vec::new(alloc),
        value: None,
    }
}

fn drafts(alloc: Global, count: usize) -> Result<Vec<Draft>, NoMemory> {
    let mut all = Vec::new(alloc);
    'tasks: for _task in 0..count {
        all.push(Draft {
            made: nothing_made(alloc),
            log: Log::new(alloc),
        })?;
    }
    Ok(all)
}

fn values_of(alloc: Global, drafts: Vec<Draft>) -> Result<Vec<TaskValue>, NoMemory> {
    let mut all = Vec::new(alloc);
    for draft in drafts {
        all.push(value_of(alloc, draft.made, draft.log)?)?;
    }
    Ok(all)
}

// Whether each message stands between two characters of the text.
fn stand_well(text: &Text, messages: &[Message]) -> bool
    ensures { IsTrue result → All (λ m. IsCharBoundary text.now m.at) messages.now }
{
    match messages {
        [] => true,
        [message, rest @ ..] => {
            text.as_str().is_char_boundary(message.at) && stand_well(text, rest)
        }
    }
}

fn reported(alloc: Global, joined: &Joined) -> Result<String, Unread> {
    let stands = stand_well(&joined.text, joined.messages.as_slice());
    if !stands || joined.base as usize > joined.constants.len() {
        return Err(Unread::Malformed);
    }
    String::from_utf8(report(alloc, joined)?).map_err(|_| Unread::Malformed)
}

fn diagnostic(alloc: Global, fields: &mut Fields<'_>) -> Result<Diagnostic, Unread> {
    match fields.text()? {
        "spent" => Ok(Diagnostic::BudgetSpent),
        "sorry" => Ok(Diagnostic::UsesSorry),
        "checked" => {
            let term = Word::new(alloc, fields.text()?)?;
            let ty = Word::new(alloc, fields.text()?)?;
            Ok(Diagnostic::Info(Info::Checked { term, ty }))
        }
        _ => Err(Unread::Malformed),
    }
}

// A part of the task that ends so, at this place.
fn part(alloc: Global, log: &mut Log, word: &str, at: usize) -> Result<(), Unread> {
    let outcome: Result<Judged<u32>, Ended> = match word {
        "right" => Ok(Judged::Right(0)),
        "wrong" => Ok(Judged::Wrong(at, Diagnostic::UsesSorry)),
        "out" => Err(Ended::Out),
        _ => return Err(Unread::Malformed),
    };
    let state = begin_part(alloc, log);
    match end_part(alloc, log, state, at, outcome) {
        Ok(_end) => Ok(()),
        Err(_halted) => Err(Unread::NoMemory),
    }
}

impl Place {
    pub fn new(alloc: Global) -> Place {
        Place {
            alloc,
            values: Values {
                base: Vec::new(alloc),
                plan: None,
                heads: Vec::new(alloc),
                bodies: Vec::new(alloc),
                reals: Vec::new(alloc),
            },
            heads: Vec::new(alloc),
            bodies: Vec::new(alloc),
        }
    }

    fn draft(&mut self, fields: &mut Fields<'_>) -> Result<&mut Draft, Unread> {
        let drafts = match fields.text()? {
            "head" => &mut self.heads,
            "body" => &mut self.bodies,
            _ => return Err(Unread::Malformed),
        };
        let i = fields.number()?;
        drafts.get_mut(i as usize).ok_or(Unread::Malformed)
    }

    fn plan(&mut self, fields: &mut Fields<'_>) -> Result<(), Unread> {
        let alloc = self.alloc;
        let written = lines(alloc, fields.text()?)?;
        let Ok(text) = Text::read(alloc, written.as_str().as_bytes()) else {
            return Err(Unread::Malformed);
        };
        let commands = parse(alloc, &text)?;
        self.heads = drafts(alloc, commands.len())?;
        self.bodies = drafts(alloc, commands.len())?;
        let Ok(plan) = Plan::of(alloc, text, commands, 1_000_000) else {
            return Err(Unread::Malformed);
        };
        self.values.plan = Some(plan);
        Ok(())
    }

    fn header(&mut self, fields: &mut Fields<'_>) -> Result<(), Unread> {
        let alloc = self.alloc;
        let draft = self.draft(fields)?;
        let info = fields.constant(alloc)?;
        draft.made.header = Some(Header {
            info,
            sort: Level::zero(alloc)?,
            erred: false,
        });
        Ok(())
    }

    fn entry(&mut self, fields: &mut Fields<'_>) -> Result<(), Unread> {
        let alloc = self.alloc;
        let draft = self.draft(fields)?;
        let info = fields.constant(alloc)?;
        draft.made.entries.push(info)?;
        Ok(())
    }

    fn value(&mut self, fields: &mut Fields<'_>) -> Result<(), Unread> {
        let alloc = self.alloc;
        let draft = self.draft(fields)?;
        let term = lf_notation::term(alloc, fields.text()?)?;
        draft.made.value = Some(Valued { term, height: 0 });
        Ok(())
    }

    fn says(&mut self, fields: &mut Fields<'_>) -> Result<(), Unread> {
        let alloc = self.alloc;
        let draft = self.draft(fields)?;
        let at = fields.number()?;
        let says = diagnostic(alloc, fields)?;
        Ok(draft.log.tell(alloc, at as usize, &says)?)
    }

    fn ended(&mut self, fields: &mut Fields<'_>) -> Result<(), Unread> {
        let alloc = self.alloc;
        let draft = self.draft(fields)?;
        let word = fields.text()?;
        let at = fields.number()?;
        part(alloc, &mut draft.log, word, at as usize)
    }

    fn refused(&mut self, fields: &mut Fields<'_>) -> Result<(), Unread> {
        let alloc = self.alloc;
        let draft = self.draft(fields)?;
        let at = fields.number()?;
        let says = diagnostic(alloc, fields)?;
        match refuses::<u32>(alloc, &mut draft.log, at as usize, &says) {
            Ok(_end) => Ok(()),
            Err(_halted) => Err(Unread::NoMemory),
        }
    }

    fn asks(&mut self, fields: &mut Fields<'_>) -> Result<(), Unread> {
        let alloc = self.alloc;
        let draft = self.draft(fields)?;
        let asked: Name = name(alloc, fields.text()?)?;
        draft.log.asked.push(asked)?;
        Ok(())
    }

    fn real(&mut self, fields: &mut Fields<'_>) -> Result<(), Unread> {
        let alloc = self.alloc;
        let info = fields.constant(alloc)?;
        let name = info.name.copy(alloc)?;
        let mut value = value_of(alloc, nothing_made(alloc), Log::new(alloc))?;
        value.made = Some(info);
        self.values.reals.push(Real { name, value })?;
        Ok(())
    }

    /// What a line that prints nothing says.
    pub fn change(&mut self, word: &str, fields: &mut Fields<'_>) -> Result<(), Unread> {
        match word {
            "text" => self.plan(fields),
            "base" => {
                let info = fields.constant(self.alloc)?;
                self.values.base.push(info)?;
                Ok(())
            }
            "header" => self.header(fields),
            "entry" => self.entry(fields),
            "value" => self.value(fields),
            "says" => self.says(fields),
            "part" => self.ended(fields),
            "refused" => self.refused(fields),
            "asks" => self.asks(fields),
            "real" => self.real(fields),
            _ => Err(Unread::Malformed),
        }
    }

    /// The report; then all is forgotten.
    pub fn report(&mut self) -> Result<String, Unread> {
        let alloc = self.alloc;
        let place = std::mem::replace(self, Place::new(alloc));
        let mut values = place.values;
        values.heads = values_of(alloc, place.heads)?;
        values.bodies = values_of(alloc, place.bodies)?;
        let joined = join(alloc, &values)?;
        reported(alloc, &joined)
    }

    /// The rank of a head, a body, or a realized constant with this origin.
    pub fn rank(&mut self, fields: &mut Fields<'_>) -> Result<String, Unread> {
        let alloc = self.alloc;
        let word = fields.text()?;
        let i = fields.number()?;
        if i >= 4096 {
            return Err(Unread::Malformed);
        }
        let key = match word {
            "head" => TaskKey::Head(i),
            "body" => TaskKey::Body(i),
            "real" => TaskKey::Real(Name::one(alloc, "f")?),
            _ => return Err(Unread::Malformed),
        };
        let (first, second) = rank(&key, i);
        Ok(format!(in alloc; "{first} {second}\n")?)
    }
}
