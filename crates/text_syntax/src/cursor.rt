//! A cursor over the tokens of a text.

ghost use Rattle.std.specs.Prelude.{◌≡◌, ◌≢◌, ◌≤◌, [], ◌∷◌, ◌↔◌, IsTrue, IsFalse, IfOk};
ghost use Rattle.std.specs.Prelude.{if◌then◌else◌, None, not, nat_le, ◌-◌, length, drop, take, slice_get};
ghost use Rattle.std.specs.Str.Parse.{digits_value};
ghost use Rattle.text_ast.specs.Pieces.{Piece, pieces_of};
ghost use Rattle.text_tree.specs.Forms as forms;
ghost use Rattle.text_tree.specs.Forms.{Sign, Word as WordOf, Upper, Lower, Plain, Negated, Literal};
ghost use Rattle.text_tree.specs.Forms.{NotGrammar, admits, largest};
ghost use Rattle.text_grammar.specs.Reading.{Answer, Got, Stuck, at_most, one, starts};
ghost use Rattle.text_syntax.specs.Pieces.{AreTokensIn};
ghost use Rattle.text_syntax.specs.Reads.{IsStopWithin, Reads, cause_of};

use crate::pieces::{Piece, Word};
use crate::reserved::{is_reserved_lower, is_reserved_upper};
use crate::stop::Stop;
use std::marker::Model;
use text_lexer::limits::LARGEST_NUMBER;
use text_lexer::{Token, TokenKind};

/// The tokens that are left to read. Contracts see them as the list of their pieces: kind, bytes
/// and offset.
#[derive(Drop)]
pub struct Cursor<'a> {
    text: &'a [u8],
    tokens: &'a [Token],
}

impl<'a> Model for Cursor<'a> {
    ghost use Rattle.std.specs.Prelude.{List};
    ghost use Rattle.text_ast.specs.Pieces.{Piece, pieces_of};

    ghost Value = { List Piece };

    ghost use Rattle.text_syntax.specs.Pieces.{AreTokensIn};

    ghost view = { λ c. pieces_of c.text.now c.tokens.now };

    ghost invariant = { λ c. AreTokensIn c.text.now c.tokens.now };
}

/// Whether two tokens are of one kind.
#[tactic(auto, unfolding(text_tree::specs::Forms::same_kind))]
fn same_kind(a: TokenKind, b: TokenKind) -> bool
    ensures value { result ≡ forms.same_kind a b }
    ensures same { IsTrue result → a ≡ b }
{
    a == b
}

/// Whether memory ran out.
fn is_spent(stop: Stop) -> bool
    ensures { IsTrue result ↔ (cause_of stop ≡ None) }
{
    match stop {
        Stop::OutOfMemory => true,
        Stop::NotGrammar
        | Stop::TooDeep
        | Stop::TooManyTokens
        | Stop::TooManyStatics
        | Stop::TooManyModels
        | Stop::TooManyFields
        | Stop::TooManyCommands => false,
    }
}

/// Whether a token is the name of a static or a model.
#[tactic(auto, unfolding(text_tree::specs::Forms::admits))]
fn is_upper(piece: &Piece<'_>) -> bool
    ensures value { result ≡ admits Upper piece.now }
    ensures kind { IsTrue result → piece.now.kind ≡ TokenKind.Upper }
{
    same_kind(piece.kind(), TokenKind::Upper) && !is_reserved_upper(piece.bytes())
}

/// Whether a token is the name of a field or a variable.
#[tactic(auto, unfolding(text_tree::specs::Forms::admits))]
fn is_lower(piece: &Piece<'_>) -> bool
    ensures value { result ≡ admits Lower piece.now }
    ensures kind { IsTrue result → piece.now.kind ≡ TokenKind.Lower }
{
    same_kind(piece.kind(), TokenKind::Lower) && !is_reserved_lower(piece.bytes())
}

/// Whether a token is a number without a sign.
#[tactic(auto, unfolding(text_tree::specs::Forms::admits))]
fn is_plain(piece: &Piece<'_>) -> bool
    ensures value { result ≡ admits Plain piece.now }
    ensures kind { IsTrue result → piece.now.kind ≡ TokenKind.Number }
    ensures within { IsTrue result → digits_value 10 piece.now.bytes ≤ largest }
{
    same_kind(piece.kind(), TokenKind::Number) && piece.number() < LARGEST_NUMBER
}

/// Whether a token may stand after a minus: a number other than 0.
#[tactic(auto, unfolding(text_tree::specs::Forms::admits))]
fn is_negated(piece: &Piece<'_>) -> bool
    ensures value { result ≡ admits Negated piece.now }
    ensures kind { IsTrue result → piece.now.kind ≡ TokenKind.Number }
    ensures some { IsTrue result → 1 ≤ digits_value 10 piece.now.bytes }
{
    same_kind(piece.kind(), TokenKind::Number) && piece.number() >= 1
}

impl<'a> Cursor<'a> {
    /// All tokens of the text.
    pub fn new(text: &'a [u8], tokens: &'a [Token]) -> Cursor<'a>
        requires { AreTokensIn text.now tokens.now }
        ensures { result ≡ pieces_of text.now tokens.now }
    {
        Cursor { text, tokens }
    }

    /// How many tokens are left.
    pub fn len(&self) -> usize
        ensures { result ≡ length self.now }
    {
        self.tokens.len()
    }

    /// Whether none is left.
    pub fn is_empty(&self) -> bool
        ensures { IsTrue result ↔ (self.now ≡ []) }
    {
        self.tokens.is_empty()
    }

    /// Passes over the next token.
    fn skip(&mut self)
        requires { self.old ≢ [] }
        ensures { self.new ≡ drop 1 self.old }
    {
        self.tokens = &self.tokens[1..];
    }

    /// A cursor at the same place.
    pub fn mark(&self) -> Cursor<'a>
        ensures { result ≡ self.now }
    {
        Cursor {
            text: self.text,
            tokens: self.tokens,
        }
    }

    /// Passes over so many tokens.
    fn pass(&mut self, count: usize)
        requires { count ≤ length self.old }
        ensures { self.new ≡ drop count self.old }
    {
        let (_, rest) = self.tokens.split_at(count);
        self.tokens = rest;
    }

    /// A cursor over the first tokens that are left, so many of them.
    pub fn window(&self, most: usize) -> Cursor<'a>
        ensures { result ≡ take most self.now }
    {
        let (tokens, _) = self.tokens.split_at(most.min(self.len()));
        Cursor {
            text: self.text,
            tokens,
        }
    }

    /// Passes over what a cursor over the first so many tokens has passed over.
    pub fn follow(&mut self, window: &Cursor<'_>, most: usize)
        ensures { self.new ≡ drop (length (take most self.old) - length window.now) self.old }
    {
        let size = most.min(self.len());
        self.pass(size.saturating_sub(window.len()));
    }

    /// Whether more tokens were taken since the other cursor. It stands at the first too many then.
    fn overran(&mut self, start: Cursor<'a>, most: usize) -> bool
        ensures over { result ≡ not (nat_le (length start.entry - length self.old) most) }
        ensures back { IsTrue result → self.new ≡ drop most start.entry }
        ensures kept { IsFalse result → self.new ≡ self.old }
    {
        let taken = start.len().saturating_sub(self.len());
        if taken <= most {
            return false;
        }
        *self = start;
        self.pass(most);
        true
    }

    /// What was read from the other cursor on, if it took at most so many tokens.
    fn got_within<T: Drop>(&mut self, start: Cursor<'a>, most: usize, read: T) -> Result<T, Stop>
        ensures { Reads (at_most most start.entry (Got read self.old)) result self.new }
    {
        if self.overran(start, most) {
            return Err(Stop::TooManyTokens);
        }
        Ok(read)
    }

    /// Why nothing was read from the other cursor on, or that this took too many tokens.
    fn stopped_within(&mut self, start: Cursor<'a>, most: usize, stop: Stop) -> Stop
        ensures within { IsStopWithin most start.entry self.old stop result self.new }
        ensures spent { cause_of stop ≡ None → cause_of result ≡ None }
    {
        if is_spent(stop) {
            return stop;
        }
        if self.overran(start, most) {
            return Stop::TooManyTokens;
        }
        stop
    }

    /// What was read from the other cursor on, if it took at most so many tokens; else it stands at
    /// the first token too many.
    pub fn within<T: Drop>(
        &mut self,
        start: Cursor<'a>,
        most: usize,
        read: Result<T, Stop>,
    ) -> Result<T, Stop>
        ensures { (answer : Answer T) → Reads answer read self.old →
            Reads (at_most most start.entry answer) result self.new }
    {
        match read {
            Ok(read) => self.got_within(start, most, read),
            Err(stop) => Err(self.stopped_within(start, most, stop)),
        }
    }

    /// The next token.
    pub fn first(&self) -> Option<Piece<'a>>
        ensures { result ≡ slice_get self.now 0 }
    {
        let token = *self.tokens.first()?;
        Some(Piece::new(self.text, token))
    }

    /// Whether the next token is of this kind.
    #[tactic(auto, unfolding(text_tree::specs::Forms::admits))]
    pub fn sees(&self, kind: TokenKind) -> bool
        ensures { result ≡ starts (Sign kind ∷ []) self.now }
    {
        match self.first() {
            Some(piece) => same_kind(piece.kind(), kind),
            None => false,
        }
    }

    /// Whether the next token is this reserved word.
    #[tactic(auto, unfolding(text_tree::specs::Forms::admits))]
    pub fn sees_word(&self, kind: TokenKind, word: &[u8]) -> bool
        ensures { result ≡ starts (WordOf kind word.now ∷ []) self.now }
    {
        match self.first() {
            Some(piece) => same_kind(piece.kind(), kind) && piece.bytes() == word,
            None => false,
        }
    }

    /// What was read, unless a token of this kind comes next.
    pub fn unless<T: Drop>(&self, kind: TokenKind, read: T) -> Result<T, Stop>
        ensures { Reads (if starts (Sign kind
            ∷ []) self.now then Stuck NotGrammar self.now else Got read self.now) result self.now }
    {
        if self.sees(kind) {
            Err(Stop::NotGrammar)
        } else {
            Ok(read)
        }
    }

    /// Takes a token of this kind, if one comes next.
    #[tactic(auto, unfolding(text_tree::specs::Forms::admits))]
    pub fn take(&mut self, kind: TokenKind) -> bool
        ensures sees { result ≡ starts (Sign kind ∷ []) self.old }
        ensures taken { IsTrue result → (l : Piece) × (one (Sign kind) self.old ≡ Got l self.new) }
        ensures kept { IsFalse result → self.new ≡ self.old }
    {
        let found = self.sees(kind);
        if found {
            self.skip();
        }
        found
    }

    /// A token of this kind.
    #[tactic(auto, unfolding(text_tree::specs::Forms::admits))]
    pub fn sign(&mut self, kind: TokenKind) -> Result<Piece<'a>, Stop>
        ensures { Reads (one (Sign kind) self.old) result self.new }
    {
        match self.first() {
            Some(piece) if same_kind(piece.kind(), kind) => {
                self.skip();
                Ok(piece)
            }
            _ => Err(Stop::NotGrammar),
        }
    }

    /// This reserved word.
    #[tactic(auto, unfolding(text_tree::specs::Forms::admits))]
    pub fn word(&mut self, kind: TokenKind, word: &[u8]) -> Result<Piece<'a>, Stop>
        ensures { Reads (one (WordOf kind word.now) self.old) result self.new }
    {
        match self.first() {
            Some(piece) if same_kind(piece.kind(), kind) && piece.bytes() == word => {
                self.skip();
                Ok(piece)
            }
            _ => Err(Stop::NotGrammar),
        }
    }

    /// The name of a static or a model.
    #[tactic(auto, unfolding(text_tree::specs::Forms::admits))]
    pub fn upper(&mut self) -> Result<Word<'a>, Stop>
        ensures { Reads (one Upper self.old) result self.new }
    {
        match self.first() {
            Some(piece) if is_upper(&piece) => {
                self.skip();
                Ok(piece.word())
            }
            _ => Err(Stop::NotGrammar),
        }
    }

    /// The name of a field or a variable.
    #[tactic(auto, unfolding(text_tree::specs::Forms::admits))]
    pub fn lower(&mut self) -> Result<Word<'a>, Stop>
        ensures { Reads (one Lower self.old) result self.new }
    {
        match self.first() {
            Some(piece) if is_lower(&piece) => {
                self.skip();
                Ok(piece.word())
            }
            _ => Err(Stop::NotGrammar),
        }
    }

    /// A number without a sign: a token of at most 2^63 - 1.
    #[tactic(auto, unfolding(text_tree::specs::Forms::admits))]
    pub fn plain(&mut self) -> Result<Piece<'a>, Stop>
        ensures reads { Reads (one Plain self.old) result self.new }
        ensures number { IfOk result (λ l. l.kind ≡ TokenKind.Number) }
        ensures within { IfOk result (λ l. digits_value 10 l.bytes ≤ largest) }
    {
        match self.first() {
            Some(piece) if is_plain(&piece) => {
                self.skip();
                Ok(piece)
            }
            _ => Err(Stop::NotGrammar),
        }
    }

    /// A number after a minus: a token other than 0.
    #[tactic(auto, unfolding(text_tree::specs::Forms::admits))]
    pub fn negated(&mut self) -> Result<Piece<'a>, Stop>
        ensures reads { Reads (one Negated self.old) result self.new }
        ensures number { IfOk result (λ l. l.kind ≡ TokenKind.Number) }
        ensures some { IfOk result (λ l. 1 ≤ digits_value 10 l.bytes) }
    {
        match self.first() {
            Some(piece) if is_negated(&piece) => {
                self.skip();
                Ok(piece)
            }
            _ => Err(Stop::NotGrammar),
        }
    }

    /// A text in quotes.
    #[tactic(auto, unfolding(text_tree::specs::Forms::admits))]
    pub fn literal(&mut self) -> Result<Piece<'a>, Stop>
        ensures reads { Reads (one Literal self.old) result self.new }
        ensures text { IfOk result (λ l. l.kind ≡ TokenKind.Text) }
    {
        match self.first() {
            Some(piece) if same_kind(piece.kind(), TokenKind::Text) => {
                self.skip();
                Ok(piece)
            }
            _ => Err(Stop::NotGrammar),
        }
    }

    /// Whether the next token is the name of a static or a model.
    #[tactic(auto, unfolding(text_tree::specs::Forms::admits))]
    pub fn sees_upper(&self) -> bool
        ensures { result ≡ starts (Upper ∷ []) self.now }
    {
        match self.first() {
            Some(piece) => is_upper(&piece),
            None => false,
        }
    }

    /// Whether the next token is the name of a field or a variable.
    #[tactic(auto, unfolding(text_tree::specs::Forms::admits))]
    pub fn sees_lower(&self) -> bool
        ensures { result ≡ starts (Lower ∷ []) self.now }
    {
        match self.first() {
            Some(piece) => is_lower(&piece),
            None => false,
        }
    }

    /// Whether the next token is a number without a sign.
    #[tactic(auto, unfolding(text_tree::specs::Forms::admits))]
    pub fn sees_plain(&self) -> bool
        ensures { result ≡ starts (Plain ∷ []) self.now }
    {
        match self.first() {
            Some(piece) => is_plain(&piece),
            None => false,
        }
    }

    /// Whether the next token is a text in quotes.
    #[tactic(auto, unfolding(text_tree::specs::Forms::admits))]
    pub fn sees_literal(&self) -> bool
        ensures { result ≡ starts (Literal ∷ []) self.now }
    {
        match self.first() {
            Some(piece) => same_kind(piece.kind(), TokenKind::Text),
            None => false,
        }
    }
}
