//! What a line is answered.

ghost use Rattle.std.specs.Prelude.{◌≡◌, ◌≤◌, length};
ghost use Rattle.app_store.specs.Headline.{IsHeld};
ghost use Rattle.door_meaning.specs.Step.{DoorStep, IsAnswered, LineMayFetch, MayFetch, Whole};
ghost use Rattle.door_meaning.specs.Step.{most_line_bytes};
ghost use Rattle.door_serve.specs.Doing.{Does};
ghost use Rattle.door_serve.specs.DoorState.{state_of};
ghost use Rattle.door_serve.specs.Stepping.{looked};

use crate::bad::bad_place;
use crate::door::Door;
use crate::door_err::{DoorErr, ended};
use app_flow::Shelf;
use door_judge::{Cell, Halt};
use door_meaning::Reply;
use door_requests::{Request, parse_request};
use std::alloc::Global;
use store_keeper::Keeper;

/// How a request ends that only looks.
fn looked(end: Result<Reply, Halt>) -> Result<Reply, DoorErr>
    ensures { result ≡ looked end }
{
    match end {
        Ok(reply) => Ok(reply),
        Err(halt) => ended(halt),
    }
}

impl Door {
    /// What a request is answered.
    fn answer<F: Shelf, K: Keeper>(
        &mut self,
        alloc: Global,
        request: &Request,
        shelf: &mut F,
        store: &mut K,
    ) -> Result<Reply, DoorErr>
        requires { IsHeld (K.told store.old) (state_of self.old).stored }
        ensures { Does F.told F.calls F.faults K.told K.calls K.faults
            (MayFetch (state_of self.old) request.now)
            (IsAnswered (F.told shelf.old) (state_of self.old) request.now) (state_of self.old)
            shelf.old shelf.new store.old store.new result (state_of self.new) }
    {
        match request {
            Request::Open(session, who, _) => Ok(self.open_session(alloc, &session.name, who)?),
            Request::Renew(session, _) => Ok(self.renew(&session.name)),
            Request::Close(session, _) => Ok(self.close(&session.name)),
            Request::Read(session, model, id, field, _) => {
                let id = *id;
                let cell = Cell { model, id, field };
                looked(self.read(alloc, session, &cell))
            }
            Request::Find(session, model, conditions, _) => {
                looked(self.find(alloc, session, model, conditions.as_slice()))
            }
            Request::Write(session, model, id, field, value, _) => {
                let id = *id;
                let cell = Cell { model, id, field };
                self.write(alloc, session, &cell, value, store)
            }
            Request::Create(session, model, row, _) => {
                self.create(alloc, session, model, row.as_slice(), store)
            }
            Request::Delete(session, model, id, _) => {
                self.delete(alloc, session, model, *id, store)
            }
            Request::Migrate(name, _) => self.migrate(alloc, name, shelf, store),
        }
    }

    /// Answers a line.
    ///
    /// After an `Err` the door and what the store holds are as before.
    pub fn step<F: Shelf, K: Keeper>(
        &mut self,
        alloc: Global,
        line: &[u8],
        shelf: &mut F,
        store: &mut K,
    ) -> Result<Reply, DoorErr>
        requires short { length line.now ≤ most_line_bytes }
        requires held { IsHeld (K.told store.old) (state_of self.old).stored }
        ensures { Does F.told F.calls F.faults K.told K.calls K.faults
            (LineMayFetch (state_of self.old) (Whole line.now))
            (DoorStep (F.told shelf.old) (state_of self.old) (Whole line.now)) (state_of self.old)
            shelf.old shelf.new store.old store.new result (state_of self.new) }
    {
        match parse_request(alloc, line) {
            Ok(None) => Ok(Reply::Quiet),
            Ok(Some(request)) => self.answer(alloc, &request, shelf, store),
            Err(err) => {
                let at = bad_place(alloc, line, err)?;
                Ok(Reply::BadLine { at })
            }
        }
    }
}
