//! The lines of an input, one after another, and their replies.

ghost use Rattle.std.specs.Prelude.{◌≡◌, ◌≤◌, [], IfOk, IfSome, List, length, option_copied};
ghost use Rattle.std.specs.List.{flat_map};
ghost use Rattle.app_flow.specs.Faults.{Rose};
ghost use Rattle.app_flow.specs.Outside.{IsRead};
ghost use Rattle.app_serve.specs.Replied.{IsReplied};
ghost use Rattle.app_serve.specs.Run.{IsServed};
ghost use Rattle.app_serve.specs.Served.{most_input_bytes};
ghost use Rattle.app_serve.specs.Turned.{Turned, line_seen, status_at};
ghost use Rattle.app_store.specs.Calls.{Call, fetched_by};
ghost use Rattle.app_store.specs.Headline.{IsHeld};
ghost use Rattle.app_store.specs.Told.{IsKept};
ghost use Rattle.door_lines.specs.Lines.{IsRest};
ghost use Rattle.door_meaning.specs.Step.{DoorStep, LineMayFetch, most_line_bytes};
ghost use Rattle.door_serve.specs.Doing.{Does};
ghost use Rattle.door_serve.specs.DoorState.{state_of};
ghost use Rattle.store_keeper.specs.Stored.{IsStored, stored_of};
ghost use Rattle.store_keeper.specs.declared.keeper.KeepCall.{KeepCall};

use crate::serve_err::ServeErr;
use app_flow::{Shelf, Sink};
use door_lines::{Line, LineBuf, Source};
use door_meaning::limits::{MOST_INPUT_BYTES, MOST_LINE_BYTES};
use door_meaning::{Reply, put_reply};
use door_serve::{Door, DoorErr};
use std::alloc::{AllocError, Global};
use store_keeper::{Keeper, Stored};

/// What a turn comes to.
#[derive(Clone, Copy, Debug, PartialEq, Eq)]
pub(crate) enum Turn {
    /// A line was answered.
    Answered,
    /// There is no further line.
    Ended,
}

/// A door, and the lines that are read for it.
#[derive(Drop)]
pub(crate) struct Service {
    door: Door,
    lines: LineBuf,
}

/// The reply to a line, or to one that was too long.
fn reply_to<F: Shelf, K: Keeper>(
    door: &mut Door,
    alloc: Global,
    line: Option<&[u8]>,
    shelf: &mut F,
    store: &mut K,
) -> Result<Reply, DoorErr>
    requires short { IfSome (option_copied line) (λ line. length line ≤ most_line_bytes) }
    requires held { IsHeld (K.told store.old) (state_of door.old).stored }
    ensures { Does F.told F.calls F.faults K.told K.calls K.faults
        (LineMayFetch (state_of door.old) (line_seen (option_copied line.entry)))
        (DoorStep (F.told shelf.old) (state_of door.old) (line_seen (option_copied line.entry)))
        (state_of door.old) shelf.old shelf.new store.old store.new result (state_of door.new) }
{
    match line {
        Some(line) => door.step(alloc, line, shelf, store),
        None => Ok(Reply::BadLine {
            at: MOST_LINE_BYTES as u32,
        }),
    }
}

/// Answers a line, or one that was too long. The reply is put out.
fn answer<F: Shelf, K: Keeper, W: Sink>(
    door: &mut Door,
    alloc: Global,
    line: Option<&[u8]>,
    shelf: &mut F,
    store: &mut K,
    out: &mut W,
) -> Result<Turn, ServeErr>
    requires short { IfSome (option_copied line) (λ line. length line ≤ most_line_bytes) }
    requires held { IsHeld (K.told store.old) (state_of door.old).stored }
    ensures replied { (calls : List Call) × (made : List KeepCall)
        × IsReplied (Rose (F.faults shelf.old) (F.faults shelf.new))
        (Rose (W.faults out.old) (W.faults out.new)) (Rose (K.faults store.old) (K.faults store.new))
        (F.told shelf.old) (state_of door.old) (state_of door.new)
        (line_seen (option_copied line.entry)) calls (K.told store.old) (K.told store.new)
        (W.told out.old) (W.told out.new) Turn.Answered result
        × IsRead F.told F.calls F.faults shelf.old shelf.new (flat_map fetched_by calls) ⊥
        × IsKept K.calls K.faults store.old store.new made ⊥ }
    ensures stored { IsStored (state_of door.new).stored }
    ensures written { W.faults out.old ≤ W.faults out.new }
{
    let reply = reply_to(door, alloc, line, shelf, store)?;
    put_reply(alloc, &reply, out)?;
    Ok(Turn::Answered)
}

impl Service {
    /// The door over what is stored, without sessions, before the first line.
    pub(crate) fn new(alloc: Global, stored: Stored) -> Result<Service, AllocError>
        ensures stored { IfOk result
            (λ service. (state_of service.door).stored ≡ stored_of stored) }
        ensures none { IfOk result (λ service. (state_of service.door).sessions ≡ []) }
        ensures fresh { IfOk result (λ service. IsRest service.lines []) }
        ensures taken { IfOk result (λ service. service.lines.taken ≡ 0) }
        ensures line_limit { IfOk result (λ service. service.lines.line_limit ≡ most_line_bytes) }
        ensures budget { IfOk result (λ service. service.lines.budget ≡ most_input_bytes) }
    {
        Ok(Service {
            lines: LineBuf::new(alloc, MOST_LINE_BYTES, MOST_INPUT_BYTES)?,
            door: Door::make(alloc, stored),
        })
    }

    /// Reads the next line, and answers it.
    fn turn<F: Shelf, S: Source, K: Keeper, W: Sink>(
        &mut self,
        alloc: Global,
        shelf: &mut F,
        input: &mut S,
        store: &mut K,
        out: &mut W,
    ) -> Result<Turn, ServeErr>
        requires limit { self.old.lines.line_limit ≡ most_line_bytes }
        requires held { IsHeld (K.told store.old) (state_of self.old.door).stored }
        ensures turned { Turned F.told F.calls F.faults S.told S.faults K.told K.calls K.faults
            W.told W.faults shelf.old shelf.new input.old input.new store.old store.new out.old out.new
            self.old.lines self.new.lines (state_of self.old.door) (state_of self.new.door) result }
        ensures stored { IsStored (state_of self.new.door).stored }
    {
        match self.lines.next_line(input)? {
            Line::Text(start, end) => {
                let line = self.lines.bytes(start, end);
                answer(&mut self.door, alloc, Some(line), shelf, store, out)
            }
            Line::Cut => answer(&mut self.door, alloc, None, shelf, store, out),
            Line::End => Ok(Turn::Ended),
        }
    }

    /// Answers the lines of the input, each before the next one is read, up to its end.
    pub(crate) fn serve<F: Shelf, S: Source, K: Keeper, W: Sink>(
        &mut self,
        alloc: Global,
        shelf: &mut F,
        input: &mut S,
        store: &mut K,
        out: &mut W,
    ) -> Result<(), ServeErr>
        requires none { (state_of self.old.door).sessions ≡ [] }
        requires fresh { IsRest self.old.lines [] }
        requires taken { self.old.lines.taken ≡ 0 }
        requires line_limit { self.old.lines.line_limit ≡ most_line_bytes }
        requires budget { self.old.lines.budget ≡ most_input_bytes }
        requires held { IsHeld (K.told store.old) (state_of self.old.door).stored }
        ensures served { IsServed F.told F.calls F.faults S.told S.faults K.told K.calls K.faults
            W.told W.faults shelf.old shelf.new input.old input.new store.old store.new out.old out.new
            (status_at result) (state_of self.old.door).stored }
        ensures store { (made : List KeepCall)
            × IsKept K.calls K.faults store.old store.new made ⊥ }
    {
        'lines: loop {
            match self.turn(alloc, shelf, input, store, out)? {
                Turn::Answered => {}
                Turn::Ended => return Ok(()),
            }
        }
    }
}
