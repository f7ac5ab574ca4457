ghost use Rattle.std.specs.Prelude.{◌≡◌, ◌<◌, None, IfOk, OnOk, OnErr, length, map, [], ◌∷◌};
ghost use Rattle.std.specs.List.{IsDistinct};
ghost use Rattle.std.specs.Option.{option_copied};
ghost use Rattle.lf_checker.specs.View as view;
ghost use Rattle.lf_checker.specs.View.{
  find_entry,
  find_branch,
  placed_of,
  lookup_of,
  body_of,
  value_of,
  known_body,
  by_suffix,
  by_parent,
  by_entry,
  answer_of,
  parent_of,
  branch_over as branch_over_of,
  value_in as value_in_view,
  origin_of,
  entries_before,
  failed_before,
  base_view,
  pushed,
  opened_branch,
  joined_branch,
  answered,
  view_at,
  view_real_at,
};
ghost use Rattle.lf_core.specs.Suffix.{suffix_of};
ghost use Rattle.lf_env.specs.Answer.{DistinctNames, IsKnown, Shows, CanJoin, CanAnswer, HasEntryAt, told};
ghost use Rattle.lf_env.specs.Layer.{failed_of, narrowed as narrowed_view};
ghost use Rattle.lf_env.specs.Names.{same_entry};

use crate::answer::{BodyOf, Lookup};
use crate::entry::SharedEntry;
use crate::layer::stands_before;
use crate::layers::BASE;
use crate::listing::Listing;
use lf_core::{ConstInfo, ConstKind, Detail, Expr, Level, Name, NoMemory, Suffix, Word};
use sqlite_items::Items;
use std::alloc::Global;
use std::marker::Model;

/// The constants that are known at a place of a text. Views of one text share them.
#[derive(Drop)]
pub struct View {
    // as they were pushed
    entries: Listing,
    // those whose branch was joined, with their values
    joined: Listing,
    // those whose branch was opened, as they were then
    opened: Listing,
    // at the positions of their parents
    realized: Listing,
    // the names that were tried in vain, each in a constant that is never shown
    failed: Listing,
    position: u32,
    for_base: bool,
}

/// What came of the realizable names.
#[derive(Drop)]
struct Answers {
    realized: Listing,
    failed: Listing,
}

impl Answers {
    /// No name was tried.
    fn none(alloc: Global) -> Answers
        ensures { (result.realized ≡ []) × (result.failed ≡ []) }
    {
        Answers {
            realized: Listing::empty(alloc),
            failed: Listing::empty(alloc),
        }
    }
}

impl Model for View {
    ghost use Rattle.std.specs.Coded.{codes};
    ghost use Rattle.lf_core.specs.Codes.{coded_term};
    ghost use Rattle.lf_checker.specs.View.{View as ViewValue};
    ghost use Rattle.lf_env.specs.Layer.{AreBacked, shown};

    ghost Value = { ViewValue };

    ghost coded = { Prim.hlevel (codes, coded_term) };

    ghost view = { λ v. shown v.entries v.joined v.opened v.realized v.failed v.position v.for_base };

    ghost invariant = { λ v. AreBacked v.joined v.opened × AreBacked v.opened v.entries };
}

/// All parts but the last.
fn front(words: &[Word]) -> &[Word]
    ensures { result.now ≡ parent_of words.now }
{
    match words {
        [] => words,
        [front @ .., _last] => front,
    }
}

/// The constant's value, where it is known.
fn known_value(info: &ConstInfo) -> BodyOf<'_>
    ensures { Shows result (known_body info.now.value info.now.height) }
{
    match &info.value {
        Some(value) => BodyOf::Value(value),
        None => BodyOf::Opaque,
    }
}

// A name has a part.
fn has_parts(info: &ConstInfo)
    ensures { 0 < length info.now.name }
{
    info.name.parts();
}

/// An entry in which the name of a constant that couldn't be made is kept.
fn failure(alloc: Global, name: Name, position: u32) -> Result<SharedEntry, NoMemory>
    ensures { IfOk result (λ e. failed_of e ≡ record { name = name; position = position }) }
{
    let info = ConstInfo {
        name,
        kind: ConstKind::Axiom,
        levels: Items::new(alloc),
        ty: Expr::sort(alloc, Level::zero(alloc)?)?,
        value: None,
        height: 0,
        detail: Detail::Plain,
    };
    SharedEntry::new(alloc, info, position)
}

impl View {
    /// The view of the base: these constants, in this order. Its own position is 0.
    pub fn new(alloc: Global, base: Vec<ConstInfo>) -> Result<View, NoMemory>
        requires { DistinctNames base.items }
        ensures { IfOk result (λ v. v ≡ base_view base.items) }
    {
        let entries = Listing::base(alloc, base)?;
        Ok(View {
            entries,
            joined: Listing::empty(alloc),
            opened: Listing::empty(alloc),
            realized: Listing::empty(alloc),
            failed: Listing::empty(alloc),
            position: 0,
            for_base: false,
        })
    }

    /// The position of the command at which the view is read, or 0 for the view of the base.
    pub fn position(&self) -> u32
        ensures { result ≡ self.now.position }
    {
        self.position
    }

    /// No two of the entries have one name: a law of views, told by a call that does nothing.
    pub fn named_once(&self)
        ensures { IsDistinct same_entry self.now.entries }
    {
        self.entries.named_once()
    }

    /// Each entry's name has a part: a law of views, told by a call that does nothing.
    pub fn names_have_parts(&self)
        ensures { find_entry self.now.entries [] ≡ None }
    {
        if let Some(entry) = self.entry(&[]) {
            has_parts(entry.info());
        }
    }

    /// The entry of this name, as it shows.
    fn entry(&self, words: &[Word]) -> Option<&SharedEntry>
        ensures { option_copied result ≡ find_entry self.now.entries words.now }
    {
        match self.joined.find(words) {
            Some(entry) => Some(entry),
            None => self.entries.find(words),
        }
    }

    /// The position of the branch that is open for this name.
    fn open_position(&self, words: &[Word]) -> Option<u32>
        ensures { result ≡ find_branch self.now.branches words.now }
    {
        match self.joined.find(words) {
            Some(_) => None,
            None => match self.opened.find(words) {
                Some(entry) => Some(entry.position()),
                None => None,
            },
        }
    }

    /// The kept answer of a realizable name.
    fn kept(&self, words: &[Word]) -> Lookup<'_>
        ensures { told result ≡ answer_of self.now words.now }
    {
        match self.realized.find(words) {
            Some(entry) => Lookup::Found(entry.info()),
            None => match self.failed.find(words) {
                Some(_) => Lookup::Absent,
                None => Lookup::NeedReal,
            },
        }
    }

    /// What is known of a name that isn't there and ends in a suffix, by its parent, whose parts these are.
    fn under(&self, words: &[Word], front: &[Word], suffix: Suffix) -> Lookup<'_>
        requires { front.now ≡ parent_of words.now }
        ensures { told result ≡ by_parent self.now words.now suffix (find_entry self.now.entries front.now) }
    {
        match self.entry(front) {
            Some(parent) => {
                if suffix.fits(parent.info().kind)
                    && stands_before(self.position, parent.position())
                {
                    self.kept(words)
                } else {
                    Lookup::Absent
                }
            }
            None => match self.branch_over(front) {
                Some(position) => Lookup::NeedBody(position),
                None => Lookup::Absent,
            },
        }
    }

    /// The position of the open branch of which the name with these parts would be a child.
    fn branch_over(&self, words: &[Word]) -> Option<u32>
        ensures { result ≡ branch_over_of self.now.branches words.now }
    {
        match words {
            [] => None,
            [front @ .., _last] => self.open_position(front),
        }
    }

    /// What is known of a name that is no entry.
    fn missing(&self, words: &[Word]) -> Lookup<'_>
        ensures { told result ≡ by_entry self.now words.now None }
    {
        if let Some(position) = self.branch_over(words) {
            return Lookup::NeedBody(position);
        }
        match words {
            [] => Lookup::Absent,
            [front @ .., last] => match Suffix::of(last.as_str()) {
                Some(suffix) if !self.for_base => self.under(words, front, suffix),
                _ => Lookup::Absent,
            },
        }
    }

    /// What the view knows of this name.
    pub fn lookup(&self, name: &Name) -> Lookup<'_>
        ensures { told result ≡ lookup_of self.now name.now }
    {
        match self.entry(name.parts()) {
            Some(entry) => Lookup::Found(entry.info()),
            None => self.missing(name.parts()),
        }
    }

    /// The position of the entry of this name, 4294967295 for one of the base, and its place among the entries,
    /// counted from 0. `None` exactly where the name has no entry.
    pub fn placed(&self, name: &Name) -> Option<(u32, usize)>
        ensures { result ≡ placed_of self.now name.now }
    {
        self.entries.placed(name.parts())
    }

    /// The value of this constant, which isn't known while its branch is open.
    fn value_in<'a>(&'a self, info: &'a ConstInfo) -> BodyOf<'a>
        ensures { Shows result (value_in_view self.now info.now) }
    {
        match self.open_position(info.name.parts()) {
            Some(position) => BodyOf::NeedBody(position),
            None => known_value(info),
        }
    }

    /// What a known constant unfolds to: the value of a definition, which isn't known while its branch is open, and
    /// nothing for all others.
    pub fn body(&self, name: &Name) -> BodyOf<'_>
        requires { IsKnown self.now name.now }
        ensures { Shows result (body_of self.now name.now) }
    {
        match self.lookup(name) {
            Lookup::Found(info) => match info.kind {
                ConstKind::Def => self.value_in(info),
                _ => BodyOf::Opaque,
            },
            _ => BodyOf::Opaque,
        }
    }

    /// The value of a known constant, which isn't known while its branch is open; `Opaque` where it has none.
    pub fn value_of(&self, name: &Name) -> BodyOf<'_>
        requires { IsKnown self.now name.now }
        ensures { Shows result (value_of self.now name.now) }
    {
        match self.lookup(name) {
            Lookup::Found(info) => self.value_in(info),
            _ => BodyOf::Opaque,
        }
    }

    /// Puts a constant of the command at `position` at the end of the entries. `placed` tells whether its name has an
    /// entry. After want of memory the view is as before.
    pub fn push(&mut self, info: ConstInfo, position: u32) -> Result<(), NoMemory>
        requires { placed_of self.old info.name ≡ None }
        ensures ok { OnOk result (self.new ≡ pushed self.old info position) }
        ensures err { OnErr result (self.new ≡ self.old) }
    {
        let entry = SharedEntry::new(self.entries.alloc(), info, position)?;
        let entries = self.entries.with(entry)?;
        self.entries = entries;
        Ok(())
    }

    /// Opens the branch of a constant that is an entry of this position, as `placed` tells. After want of memory the view
    /// is as before; a second branch of one constant, open or joined, is refused so.
    pub fn open_branch(&mut self, prefix: Name, position: u32) -> Result<(), NoMemory>
        requires { HasEntryAt self.old prefix position }
        ensures ok { OnOk result (self.new ≡ opened_branch self.old prefix position) }
        ensures err { OnErr result (self.new ≡ self.old) }
    {
        if self.opened.find(prefix.parts()).is_some() {
            return Err(NoMemory);
        }
        let header = match self.entries.find(prefix.parts()) {
            Some(entry) => entry.share()?,
            None => return Err(NoMemory),
        };
        let opened = self.opened.with(header)?;
        self.opened = opened;
        Ok(())
    }

    /// Joins the branch of this position: the constants that it added are entries at its end, and the last, the header's
    /// with its value, stands in the header's place. After want of memory the view is as before.
    pub fn join_branch(&mut self, position: u32, infos: Vec<ConstInfo>) -> Result<(), NoMemory>
        requires { CanJoin self.old position infos.items }
        ensures ok { OnOk result (self.new ≡ joined_branch self.old position infos.items) }
        ensures err { OnErr result (self.new ≡ self.old) }
    {
        let mut helpers = infos;
        let header = match helpers.pop() {
            Some(info) => SharedEntry::new(self.entries.alloc(), info, position)?,
            None => return Ok(()),
        };
        let entries = self.entries.with_all(helpers, position)?;
        let joined = self.joined.with(header)?;
        self.entries = entries;
        self.joined = joined;
        Ok(())
    }

    /// Keeps what came of a realizable name: the constant that was made, or that none could be. After want of memory
    /// the view is as before.
    pub fn answer(&mut self, name: Name, made: Option<ConstInfo>) -> Result<(), NoMemory>
        requires { CanAnswer self.old name made }
        ensures ok { OnOk result (self.new ≡ answered self.old name made) }
        ensures err { OnErr result (self.new ≡ self.old) }
    {
        let origin = self.origin(name.parts());
        match made {
            Some(info) => {
                let entry = SharedEntry::new(self.entries.alloc(), info, origin)?;
                let realized = self.realized.with(entry)?;
                self.realized = realized;
            }
            None => {
                let entry = failure(self.entries.alloc(), name, origin)?;
                let failed = self.failed.with(entry)?;
                self.failed = failed;
            }
        }
        Ok(())
    }

    /// The position of the parent of the name with these parts, 4294967295 where it has none.
    fn origin(&self, words: &[Word]) -> u32
        ensures { result ≡ origin_of self.now words.now }
    {
        match self.entry(front(words)) {
            Some(parent) => parent.position(),
            None => BASE,
        }
    }

    /// The same view once more, of which each can grow by itself. No entry is copied.
    pub fn share(&self) -> Result<View, NoMemory>
        ensures { IfOk result (λ v. v ≡ self.now) }
    {
        let entries = self.entries.share()?;
        let joined = self.joined.share()?;
        let opened = self.opened.share()?;
        let realized = self.realized.share()?;
        let failed = self.failed.share()?;
        Ok(View {
            entries,
            joined,
            opened,
            realized,
            failed,
            position: self.position,
            for_base: self.for_base,
        })
    }

    /// What stands before the limit, with these answers.
    fn narrowed(
        &self,
        alloc: Global,
        limit: u32,
        answers: Answers,
        position: u32,
        for_base: bool,
    ) -> Result<View, NoMemory>
        ensures { IfOk result (λ v. v ≡ narrowed_view limit self.now answers.realized answers.failed position for_base) }
    {
        let entries = self.entries.before(alloc, limit)?;
        let joined = self.joined.before(alloc, limit)?;
        let opened = self.opened.before(alloc, limit)?;
        Ok(View {
            entries,
            joined,
            opened,
            realized: answers.realized,
            failed: answers.failed,
            position,
            for_base,
        })
    }

    /// The answers whose parents stand before the limit.
    fn answers_before(&self, alloc: Global, limit: u32) -> Result<Answers, NoMemory>
        ensures { IfOk result (λ a. (a.realized ≡ entries_before limit self.now.realized) × (map failed_of a.failed ≡ failed_before limit self.now.failed)) }
    {
        let realized = self.realized.before(alloc, limit)?;
        let failed = self.failed.before(alloc, limit)?;
        Ok(Answers { realized, failed })
    }

    /// The view of the command at `position`: what stands before it, shared with this view.
    pub fn at(&self, alloc: Global, position: u32) -> Result<View, NoMemory>
        ensures { IfOk result (λ v. v ≡ view_at self.now position) }
    {
        let answers = self.answers_before(alloc, position)?;
        self.narrowed(alloc, position, answers, position, false)
    }

    /// The view in which the realized names of the command at `origin` are made, or those of the base for 4294967295.
    pub fn real_at(&self, alloc: Global, origin: u32) -> Result<View, NoMemory>
        ensures { IfOk result (λ v. v ≡ view_real_at self.now origin) }
    {
        if origin == BASE {
            return self.narrowed(alloc, 0, Answers::none(alloc), 0, true);
        }
        let answers = self.answers_before(alloc, origin)?;
        self.narrowed(alloc, origin + 1, answers, origin, false)
    }
}
