//! Lines, as they come.
ghost use Rattle.std.specs.Prelude.{◌≡◌, ◌+◌, ◌-◌, ◌<◌, ◌≤◌, ℕ, List, [], length, slice_range, take};
ghost use Rattle.std.specs.Prelude.{Contains, IfNone, IfOk, IfSome, OnErr, vec_len};
ghost use Rattle.std.specs.Io.KnownBytes.{Consumes, IsAtEnd};
ghost use Rattle.app_flow.specs.Faults.{Rose};
ghost use Rattle.door_lines.specs.Lines.{Answers, IsInLine, IsNextLine, IsPlaced, IsRest, held};
ghost use Rattle.door_lines.specs.Turns.{HasTaken, IsLineOf, IsTurn, SameCounts};

use crate::find::first_newline;
use crate::source::{FlowErr, Source};
use app_flow::Failed;
use std::alloc::{AllocError, Global};
use std::marker::Model;

/// What a call for the next line found.
#[derive(Clone, Copy, Debug, PartialEq, Eq)]
pub enum Line {
    /// A line without its newline: where it begins and where it ends in the buffer.
    Text(usize, usize),
    /// A line that is longer than the limit.
    Cut,
    /// There is no further line.
    End,
}

/// The lines of a source, in order.
///
/// A line ends with the byte 10; a last line may lack it. All memory is taken when the buffer is
/// made: of a line that is too long no more is kept than how long it is.
#[derive(Drop)]
pub struct LineBuf {
    room: Vec<u8>,
    from: usize,
    to: usize,
    dropped: u64,
    taken: u64,
    line_limit: usize,
    budget: u64,
}

impl Model for LineBuf {
    ghost use Rattle.std.specs.Prelude.{◌≡◌, ◌+◌, ◌<◌, ◌≤◌, vec_len};
    ghost use Rattle.door_lines.specs.Lines.{LineBufState};

    ghost Value = { LineBufState };

    ghost view = { λ b. record {
      room = b.room.items;
      from = b.from;
      to = b.to;
      dropped = b.dropped;
      taken = b.taken;
      line_limit = b.line_limit;
      budget = b.budget;
    } };

    ghost invariant = { λ b. (b.from ≤ b.to) × (b.to ≤ vec_len b.room) ×
        (vec_len b.room ≡ b.line_limit + 1) × (b.dropped + b.to ≤ b.taken + b.from) ×
        (b.taken ≤ b.budget) × (0 < b.dropped → b.line_limit < b.dropped) };
}

impl LineBuf {
    /// A buffer for lines of at most `line_limit` bytes, that takes at most `budget` bytes.
    pub fn new(alloc: Global, line_limit: usize, budget: u64) -> Result<LineBuf, AllocError>
        requires some_line { 0 < line_limit }
        requires some_byte { 0 < budget }
        ensures empty { IfOk result (λ buf. IsRest buf []) }
        ensures fresh { IfOk result (λ buf. buf.taken ≡ 0) }
        ensures line_limit { IfOk result (λ buf. buf.line_limit ≡ line_limit) }
        ensures budget { IfOk result (λ buf. buf.budget ≡ budget) }
    {
        Ok(LineBuf {
            room: vec![in alloc; 0; line_limit.saturating_add(1)]?,
            from: 0,
            to: 0,
            dropped: 0,
            taken: 0,
            line_limit,
            budget,
        })
    }

    /// The bytes of a line, as `Line::Text` says where they stand. They do until the next call for
    /// a line.
    pub fn bytes(&self, start: usize, end: usize) -> &[u8]
        requires ordered { start ≤ end }
        requires within { end ≤ length self.now.room }
        ensures { result.now ≡ slice_range self.now.room start end }
    {
        &self.room[start..end]
    }

    /// The next line.
    ///
    /// `Budget` comes where as many bytes were taken as may be and no newline is among those that
    /// belong to no line; after it and after `ReadFault` the next call goes on from there.
    pub fn next_line<S: Source>(&mut self, src: &mut S) -> Result<Line, FlowErr>
        ensures gives { IsNextLine (S.told src.old) (S.told src.new) self.old self.new result }
        ensures placed { IfOk result (IsPlaced self.new) }
        ensures within { self.new.taken ≤ self.new.budget }
        ensures silent { Contains (held self.old) 10 → src.new ≡ src.old }
        ensures spent { self.old.taken ≡ self.old.budget → src.new ≡ src.old }
        ensures counted { result ≡ Err FlowErr.ReadFault →
            Rose (S.faults src.old) (S.faults src.new) }
        ensures never_falls { S.faults src.old ≤ S.faults src.new }
    {
        let found = self.find_line(src);
        self.keeps_within();
        found
    }

    /// It never takes more bytes than its budget.
    fn keeps_within(&self)
        ensures { self.now.taken ≤ self.now.budget }
    {
        let _ = &self.room;
    }

    /// The next line.
    fn find_line<S: Source>(&mut self, src: &mut S) -> Result<Line, FlowErr>
        ensures gives { IsNextLine (S.told src.old) (S.told src.new) self.old self.new result }
        ensures placed { IfOk result (IsPlaced self.new) }
        ensures silent { Contains (held self.old) 10 → src.new ≡ src.old }
        ensures spent { self.old.taken ≡ self.old.budget → src.new ≡ src.old }
        ensures counted { result ≡ Err FlowErr.ReadFault →
            Rose (S.faults src.old) (S.faults src.new) }
        ensures never_falls { S.faults src.old ≤ S.faults src.new }
    {
        match self.first_line() {
            Some(line) => Ok(line),
            None => self.read_on(src),
        }
    }

    /// The line that so many bytes from the first one that is held on belong to.
    fn line(&self, size: usize) -> Line
        requires { self.now.from + size ≤ self.now.to }
        ensures { IsLineOf self.now size result }
    {
        if self.dropped > 0 || size > self.line_limit {
            return Line::Cut;
        }
        Line::Text(self.from, self.from + size)
    }

    /// Gives so many bytes away, and what was let go before them.
    fn pass(&mut self, size: usize)
        requires { self.old.from + size ≤ self.old.to }
        ensures { self.new ≡ record self.old { from = self.old.from + size; dropped = 0 } }
    {
        self.from += size;
        self.dropped = 0;
    }

    /// The next line, if its newline is held: not among the bytes before `start`.
    fn whole_line(&mut self, start: usize) -> Option<Line>
        requires ordered { self.old.from ≤ start }
        requires within { start ≤ self.old.to }
        requires in_line { IsInLine (slice_range self.old.room self.old.from start) }
        ensures kept { IfNone result (self.new ≡ self.old) }
        ensures none { IfNone result (IsInLine (held self.old)) }
        ensures some { IfSome result (λ line. (rest : List ℕ) → IsRest self.old rest →
            Answers ⊥ self.new rest (Ok line)) }
        ensures same { SameCounts self.old self.new }
    {
        let end = start + first_newline(&self.room[start..self.to])?;
        let size = end - self.from;
        let line = self.line(size);
        self.pass(size + 1);
        Some(line)
    }

    /// The next line, if its newline is held.
    fn first_line(&mut self) -> Option<Line>
        ensures kept { IfNone result (self.new ≡ self.old) }
        ensures none { IfNone result (IsInLine (held self.old)) }
        ensures some { IfSome result (λ line. (rest : List ℕ) → IsRest self.old rest →
            Answers ⊥ self.new rest (Ok line)) }
        ensures same { SameCounts self.old self.new }
    {
        let start = self.from;
        self.whole_line(start)
    }

    /// What is left at the end of the source, in which no newline is.
    fn last_line(&mut self) -> Line
        requires { IsInLine (held self.old) }
        ensures last { (rest : List ℕ) → IsRest self.old rest →
            Answers (Unit {0}) self.new rest (Ok result) }
        ensures same { SameCounts self.old self.new }
    {
        let size = self.to - self.from;
        if self.dropped + size as u64 == 0 {
            return Line::End;
        }
        let line = self.line(size);
        self.pass(size);
        line
    }

    /// Holds the same bytes, from the front of the room on.
    fn move_to_front(&mut self)
        ensures front { self.new.from ≡ 0 }
        ensures held { held self.new ≡ held self.old }
        ensures dropped { self.new.dropped ≡ self.old.dropped }
        ensures same { SameCounts self.old self.new }
    {
        if self.from > 0 {
            self.room.copy_within(self.from..self.to, 0);
            self.to -= self.from;
            self.from = 0;
        }
    }

    /// Lets go of the bytes that are held, which are more than a line may have.
    fn let_go(&mut self)
        requires front { self.old.from ≡ 0 }
        requires full { self.old.to ≡ length self.old.room }
        requires in_line { IsInLine (held self.old) }
        ensures room { self.new.to < length self.new.room }
        ensures empty { held self.new ≡ [] }
        ensures rest { (rest : List ℕ) → IsRest self.old rest → IsRest self.new rest }
        ensures same { SameCounts self.old self.new }
    {
        self.dropped += self.to as u64;
        self.to = 0;
    }

    /// Makes room for at least one byte.
    fn make_room(&mut self)
        requires { IsInLine (held self.old) }
        ensures room { self.new.to < length self.new.room }
        ensures in_line { IsInLine (held self.new) }
        ensures rest { (rest : List ℕ) → IsRest self.old rest → IsRest self.new rest }
        ensures same { SameCounts self.old self.new }
    {
        self.move_to_front();
        if self.to == self.room.len() {
            self.let_go();
        }
    }
}

/// Takes bytes into a part of the room.
fn take_into<S: Source>(
    src: &mut S,
    room: &mut Vec<u8>,
    start: usize,
    end: usize,
) -> Result<usize, Failed>
    requires some { start < end }
    requires within { end ≤ vec_len room.old }
    ensures size { vec_len room.new ≡ vec_len room.old }
    ensures kept { take start room.new.items ≡ take start room.old.items }
    ensures fits { IfOk result (λ n. start + n ≤ end) }
    ensures taken { IfOk result (λ n. Consumes (S.told src.old)
        (S.told src.new) (slice_range room.new.items start (start + n))) }
    ensures ended { result ≡ Ok 0 → IsAtEnd (S.told src.new) }
    ensures told { OnErr result (S.told src.new ≡ S.told src.old) }
    ensures counted { OnErr result (Rose (S.faults src.old) (S.faults src.new)) }
    ensures never_falls { S.faults src.old ≤ S.faults src.new }
{
    src.take(&mut room[start..end])
}

impl LineBuf {
    /// Takes bytes behind those that are held.
    fn fill<S: Source>(&mut self, src: &mut S) -> Result<usize, Failed>
        requires room { self.old.to < length self.old.room }
        requires some { self.old.taken < self.old.budget }
        ensures came { HasTaken (S.told src.old) (S.told src.new) self.old self.new }
        ensures front { slice_range self.new.room self.old.from self.old.to ≡ held self.old }
        ensures from { self.new.from ≡ self.old.from }
        ensures to { IfOk result (λ n. self.new.to ≡ self.old.to + n) }
        ensures count { IfOk result (λ n. self.new.taken ≡ self.old.taken + n) }
        ensures stood { OnErr result (self.new.to ≡ self.old.to) }
        ensures ended { result ≡ Ok 0 → IsAtEnd (S.told src.new) }
        ensures counted { OnErr result (Rose (S.faults src.old) (S.faults src.new)) }
        ensures never_falls { S.faults src.old ≤ S.faults src.new }
    {
        let start = self.to;
        let left = (self.budget - self.taken).min((self.room.len() - start) as u64);
        let n = take_into(src, &mut self.room, start, start + left as usize)?;
        self.to += n;
        self.taken += n as u64;
        Ok(n)
    }

    /// One turn: takes bytes, and looks for a newline among them.
    fn turn<S: Source>(&mut self, src: &mut S) -> Result<Option<Line>, FlowErr>
        requires in_line { IsInLine (held self.old) }
        requires some { self.old.taken < self.old.budget }
        ensures turn { IsTurn (S.told src.old) (S.told src.new) self.old self.new result }
        ensures counted { result ≡ Err FlowErr.ReadFault →
            Rose (S.faults src.old) (S.faults src.new) }
        ensures never_falls { S.faults src.old ≤ S.faults src.new }
    {
        self.make_room();
        let start = self.to;
        let n = self.fill(src)?;
        if n == 0 {
            return Ok(Some(self.last_line()));
        }
        Ok(self.whole_line(start))
    }

    /// The next line, where no newline is held.
    fn read_on<S: Source>(&mut self, src: &mut S) -> Result<Line, FlowErr>
        requires { IsInLine (held self.old) }
        ensures gives { IsNextLine (S.told src.old) (S.told src.new) self.old self.new result }
        ensures spent { self.old.taken ≡ self.old.budget → src.new ≡ src.old }
        ensures counted { result ≡ Err FlowErr.ReadFault →
            Rose (S.faults src.old) (S.faults src.new) }
        ensures never_falls { S.faults src.old ≤ S.faults src.new }
    {
        while self.taken < self.budget {
            match self.turn(src)? {
                Some(line) => return Ok(line),
                None => {}
            }
        }
        Err(FlowErr::Budget)
    }
}
