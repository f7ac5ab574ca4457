ghost use Rattle.std.specs.Prelude.{◌≡◌, ◌+◌, ◌≤◌, drop, true, ◌++◌, [], ◌∷◌, length, OnOk, reverse, replicate, count_by};
ghost use Rattle.std.specs.List.{prefix_len};
ghost use Rattle.lf_text.specs.Layout.{mark, is_block, is_deeper, is_block_at};

use crate::place::Place;
use lf_base::NoMemory;
use lf_text::{Frame, Role, Token, TokenKind, Word};
use std::alloc::Global;
use std::marker::Model;

/// Tokens, and what is open behind them, of which so many are brackets.
#[derive(Drop)]
pub struct Stack {
    tokens: Vec<Token>,
    frames: Vec<Frame>,
    brackets: usize,
}

impl Model for Stack {
    ghost use Rattle.std.specs.Prelude.{◌≡◌, count_by, reverse};
    ghost use Rattle.lf_text.specs.Layout.{Put, is_bracket};

    ghost Value = { Put };

    ghost view = { λ s. record { tokens = s.tokens.items; frames = reverse s.frames.items } };

    ghost invariant = { λ s. s.brackets ≡ count_by is_bracket (reverse s.frames.items) };
}

/// A layout token at a place.
fn mark(word: Word, at: usize) -> Token
    ensures { result ≡ mark word at }
{
    Token {
        at,
        len: 0,
        kind: TokenKind::Word(word),
    }
}

/// So many layout tokens that close blocks.
fn push_closes(tokens: &mut Vec<Token>, at: usize, n: usize) -> Result<(), NoMemory>
    ensures { OnOk result (tokens.new.items ≡ tokens.old.items ++ replicate n (mark Word.LayoutClose at)) }
{
    'closes: for _i in 0..n {
        tokens.push(mark(Word::LayoutClose, at))?;
    }
    Ok(())
}

fn is_block(frame: Frame) -> bool
    ensures { result ≡ is_block frame }
{
    matches!(frame, Frame::Block(_))
}

fn is_deeper(frame: Frame, column: usize) -> bool
    ensures { result ≡ is_deeper column frame }
{
    match frame {
        Frame::Block(c) => column < c,
        Frame::Bracket => false,
    }
}

/// How many blocks there are.
fn blocks(frames: &[Frame]) -> usize
    ensures { result ≡ count_by is_block (reverse frames.now) }
{
    frames
        .iter()
        .rev()
        .filter(|frame| is_block(**frame))
        .count()
}

/// How many blocks stand at the end.
fn blocks_above(frames: &[Frame]) -> usize
    ensures value { result ≡ prefix_len is_block (reverse frames.now) }
    ensures within { result ≤ length frames.now }
{
    frames
        .iter()
        .rev()
        .take_while(|frame| is_block(**frame))
        .count()
}

/// How many blocks of a greater column stand at the end.
fn deeper_blocks(frames: &[Frame], column: usize) -> usize
    ensures value { result ≡ prefix_len (is_deeper column) (reverse frames.now) }
    ensures within { result ≤ length frames.now }
{
    frames
        .iter()
        .rev()
        .take_while(|frame| is_deeper(**frame, column))
        .count()
}

/// Whether a block of this column stands last.
fn is_block_at(frames: &[Frame], column: usize) -> bool
    ensures { result ≡ is_block_at column (reverse frames.now) }
{
    match frames {
        [.., Frame::Block(c)] => *c == column,
        _ => false,
    }
}

impl Stack {
    ghost use Rattle.lf_text.specs.Layout.{
      Put,
      nothing,
      blocks_above,
      has_bracket,
      close,
      open_block,
      part_items,
      new_line,
      at_where,
      at_closing,
      put_inside,
      end_command,
      put_led,
      frames_after,
    };

    /// No tokens, and nothing open.
    pub fn new(alloc: Global) -> Stack
        ensures { result ≡ nothing [] }
    {
        Stack {
            tokens: Vec::new(alloc),
            frames: Vec::new(alloc),
            brackets: 0,
        }
    }

    /// The innermost n blocks close.
    fn close(&mut self, at: usize, n: usize) -> Result<(), NoMemory>
        requires { n ≤ blocks_above self.old.frames }
        ensures { OnOk result (self.new ≡ close at n self.old) }
    {
        push_closes(&mut self.tokens, at, n)?;
        self.frames.truncate(self.frames.len() - n);
        Ok(())
    }

    /// The blocks above the innermost open bracket close.
    fn close_above(&mut self, at: usize) -> Result<(), NoMemory>
        ensures { OnOk result (self.new ≡ close at (blocks_above self.old.frames) self.old) }
    {
        let n = blocks_above(&self.frames);
        self.close(at, n)
    }

    /// A block opens.
    fn open_block(&mut self, at: usize, column: usize) -> Result<(), NoMemory>
        ensures { OnOk result (self.new ≡ open_block at column self.old) }
    {
        self.tokens.push(mark(Word::LayoutOpen, at))?;
        self.frames.push(Frame::Block(column))?;
        Ok(())
    }

    /// Deeper blocks close, and a block of this column goes on.
    fn new_line(&mut self, at: usize, column: usize) -> Result<(), NoMemory>
        ensures { OnOk result (self.new ≡ new_line at column self.old) }
    {
        let n = deeper_blocks(&self.frames, column);
        self.close(at, n)?;
        self.part_items(at, column)
    }

    /// A block of this column goes on, where it is the innermost thing open.
    fn part_items(&mut self, at: usize, column: usize) -> Result<(), NoMemory>
        ensures { OnOk result (self.new ≡ part_items at column self.old) }
    {
        if is_block_at(&self.frames, column) {
            self.tokens.push(mark(Word::LayoutSep, at))?;
        }
        Ok(())
    }

    /// All blocks above the innermost open bracket close at a `where`.
    fn at_where(&mut self, at: usize, role: Role) -> Result<(), NoMemory>
        ensures { OnOk result (self.new ≡ at_where at role self.old) }
    {
        match role {
            Role::Where => self.close_above(at),
            _ => Ok(()),
        }
    }

    /// The innermost thing open, a bracket, closes.
    fn drop_bracket(&mut self)
        requires bracket { has_bracket self.old.frames ≡ true }
        requires top { blocks_above self.old.frames ≡ 0 }
        ensures { self.new ≡ record self.old { frames = drop 1 self.old.frames } }
    {
        let _ = self.frames.pop();
        self.brackets -= 1;
    }

    /// A closing bracket closes its bracket and the blocks above, if a bracket is open.
    fn at_closing(&mut self, at: usize, role: Role) -> Result<(), NoMemory>
        ensures { OnOk result (self.new ≡ at_closing at role self.old) }
    {
        if !matches!(role, Role::Closing) || self.brackets == 0 {
            return Ok(());
        }
        self.close_above(at)?;
        self.drop_bracket();
        Ok(())
    }

    /// What the rules put before a token inside a command.
    fn put_before(
        &mut self,
        at: usize,
        column: usize,
        role: Role,
        opens: bool,
        first: bool,
    ) -> Result<(), NoMemory>
        ensures { OnOk result (self.new ≡ put_inside at column role opens first self.old) }
    {
        if opens {
            self.open_block(at, column)?;
        }
        self.at_where(at, role)?;
        if first && !opens {
            self.new_line(at, column)?;
        }
        self.at_closing(at, role)
    }

    /// The end of a command closes all that is open.
    pub fn end_command(&mut self, at: usize) -> Result<(), NoMemory>
        ensures { OnOk result (self.new ≡ end_command at self.old) }
    {
        let n = blocks(&self.frames);
        push_closes(&mut self.tokens, at, n)?;
        self.frames.clear();
        self.brackets = 0;
        Ok(())
    }

    /// What the rules put before a token; `end` is the place where the last token ends.
    pub fn lead(
        &mut self,
        place: Place,
        end: usize,
        role: Role,
        opens: bool,
        first: bool,
    ) -> Result<(), NoMemory>
        ensures { OnOk result (self.new ≡ put_led place.at place.column end role opens first self.old) }
    {
        match role {
            Role::Command => self.end_command(end),
            _ => self.put_before(place.at, place.column, role, opens, first),
        }
    }

    /// A token of the text.
    pub fn push(&mut self, token: Token, role: Role) -> Result<(), NoMemory>
        ensures { OnOk result (self.new ≡ record { tokens = self.old.tokens ++ token ∷ []; frames = frames_after role self.old.frames }) }
    {
        self.tokens.push(token)?;
        if matches!(role, Role::Opening) {
            self.frames.push(Frame::Bracket)?;
            self.brackets += 1;
        }
        Ok(())
    }

    /// All the tokens.
    pub fn into_tokens(self) -> Vec<Token>
        ensures { result.items ≡ self.tokens }
    {
        self.tokens
    }
}
