//! Requests that look at records.

ghost use Rattle.door_judge.specs.Coming.{Comes};
ghost use Rattle.door_meaning.specs.Records.{find_stage, read_stage, unchanged};
ghost use Rattle.door_meaning.specs.Replies.{reply_data};
ghost use Rattle.door_meaning.specs.Sessions.{live_session};
ghost use Rattle.door_serve.specs.DoorState.{state_of};

use crate::door::Door;
use door_judge::{Cell, Halt, ids_shown, value_read};
use door_meaning::{Reply, Session};
use door_requests::Condition;
use std::alloc::Global;
use text_tree::Named;

impl Door {
    /// The session of that name, which is not stale.
    pub(crate) fn live(&self, name: &[u8]) -> Result<&Session, Halt>
        ensures { Comes (live_session (state_of self.now) name.now) (λ s. s.now) result }
    {
        let Some(s) = self.sessions.named(name) else {
            return Err(Halt::Replied(Reply::NoSession));
        };
        if s.version != self.stored.version {
            return Err(Halt::Replied(Reply::Stale {
                session: s.version,
                door: self.stored.version,
            }));
        }
        Ok(s)
    }

    /// `read`
    pub(crate) fn read(
        &self,
        alloc: Global,
        session: &Named,
        cell: &Cell<'_>,
    ) -> Result<Reply, Halt>
        ensures { Comes (read_stage (state_of self.now) session.now cell.now.model.now cell.now.id
            cell.now.field.now) (λ reply. unchanged (reply_data reply) (state_of self.now)) result }
    {
        let s = self.live(session.name.bytes())?;
        let stored = &self.stored;
        let held = value_read(alloc, &stored.schema, &stored.base, s.who, cell)?;
        Ok(Reply::Val(held))
    }

    /// `find`
    pub(crate) fn find(
        &self,
        alloc: Global,
        session: &Named,
        model: &Named,
        conditions: &[Condition],
    ) -> Result<Reply, Halt>
        ensures { Comes (find_stage (state_of self.now) session.now model.now conditions.now)
            (λ reply. unchanged (reply_data reply) (state_of self.now)) result }
    {
        let s = self.live(session.name.bytes())?;
        let stored = &self.stored;
        let ids = ids_shown(
            alloc,
            &stored.schema,
            &stored.base,
            s.who,
            model,
            conditions,
        )?;
        Ok(Reply::Ids(ids))
    }
}
