//! Requests, by their first word.

ghost use Rattle.std.specs.Prelude.{◌≡◌};
ghost use Rattle.text_ast.specs.Limits.{most_levels};
ghost use Rattle.text_grammar.specs.Reading.{made, starts};
ghost use Rattle.text_syntax.specs.Reads.{Reads};
ghost use Rattle.text_tree.specs.Forms.{first};
ghost use Rattle.door_requests.specs.Grammar as form;
ghost use Rattle.door_requests.specs.Reads.{reading};
ghost use Rattle.door_requests.specs.Texts.{first_of};

use crate::place::Place;
use crate::requests::Request;
use crate::values::Values;
use std::alloc::Global;
use text_ast::limits::MOST_LEVELS;
use text_lexer::TokenKind;
use text_syntax::{Cursor, Stop};

/// Whether the next token is `open`.
#[tactic(auto, unfolding(crate::specs::Grammar::open_form, crate::specs::Grammar::head_form))]
fn begins_open(cursor: &Cursor<'_>) -> bool
    ensures { result ≡ starts (first first_of form.open_form) cursor.now }
{
    cursor.sees_word(TokenKind::Lower, b"open")
}

/// Whether the next token is `renew`.
#[tactic(auto, unfolding(crate::specs::Grammar::renew_form, crate::specs::Grammar::head_form))]
fn begins_renew(cursor: &Cursor<'_>) -> bool
    ensures { result ≡ starts (first first_of form.renew_form) cursor.now }
{
    cursor.sees_word(TokenKind::Lower, b"renew")
}

/// Whether the next token is `close`.
#[tactic(auto, unfolding(crate::specs::Grammar::close_form, crate::specs::Grammar::head_form))]
fn begins_close(cursor: &Cursor<'_>) -> bool
    ensures { result ≡ starts (first first_of form.close_form) cursor.now }
{
    cursor.sees_word(TokenKind::Lower, b"close")
}

/// Whether the next token is `read`.
#[tactic(auto, unfolding(crate::specs::Grammar::read_form, crate::specs::Grammar::head_form))]
fn begins_read(cursor: &Cursor<'_>) -> bool
    ensures { result ≡ starts (first first_of form.read_form) cursor.now }
{
    cursor.sees_word(TokenKind::Lower, b"read")
}

/// Whether the next token is `find`.
#[tactic(auto, unfolding(crate::specs::Grammar::find_form, crate::specs::Grammar::head_form))]
fn begins_find(cursor: &Cursor<'_>) -> bool
    ensures { result ≡ starts (first first_of form.find_form) cursor.now }
{
    cursor.sees_word(TokenKind::Lower, b"find")
}

/// Whether the next token is `write`.
#[tactic(auto, unfolding(crate::specs::Grammar::write_form, crate::specs::Grammar::head_form))]
fn begins_write(cursor: &Cursor<'_>) -> bool
    ensures { result ≡ starts (first first_of form.write_form) cursor.now }
{
    cursor.sees_word(TokenKind::Lower, b"write")
}

/// Whether the next token is `create`.
#[tactic(auto, unfolding(crate::specs::Grammar::create_form, crate::specs::Grammar::head_form))]
fn begins_create(cursor: &Cursor<'_>) -> bool
    ensures { result ≡ starts (first first_of form.create_form) cursor.now }
{
    cursor.sees_word(TokenKind::Lower, b"create")
}

/// Whether the next token is `delete`.
#[tactic(auto, unfolding(crate::specs::Grammar::delete_form, crate::specs::Grammar::head_form))]
fn begins_delete(cursor: &Cursor<'_>) -> bool
    ensures { result ≡ starts (first first_of form.delete_form) cursor.now }
{
    cursor.sees_word(TokenKind::Lower, b"delete")
}

/// Whether the next token begins a request on a session.
#[tactic(auto, using(crate::proofs::Starts::session_starts))]
fn begins_session(cursor: &Cursor<'_>) -> bool
    ensures { result ≡ starts (first first_of form.session_form) cursor.now }
{
    if begins_open(cursor) {
        return true;
    }
    begins_renew(cursor) || begins_close(cursor)
}

/// Whether the next token begins a request that looks at records.
#[tactic(auto, using(crate::proofs::Starts::looking_starts))]
fn begins_looking(cursor: &Cursor<'_>) -> bool
    ensures { result ≡ starts (first first_of form.looking_form) cursor.now }
{
    begins_read(cursor) || begins_find(cursor)
}

/// Whether the next token begins a request that changes records.
#[tactic(auto, using(crate::proofs::Starts::changing_starts))]
fn begins_changing(cursor: &Cursor<'_>) -> bool
    ensures { result ≡ starts (first first_of form.changing_form) cursor.now }
{
    if begins_write(cursor) {
        return true;
    }
    begins_create(cursor) || begins_delete(cursor)
}

/// Whether the next token begins a migration.
#[tactic(auto, unfolding(crate::specs::Grammar::migrate_form))]
fn begins_migrate(cursor: &Cursor<'_>) -> bool
    ensures { result ≡ starts (first first_of form.migrate_form) cursor.now }
{
    cursor.sees_word(TokenKind::Lower, b"migrate")
}

/// Whether the next token begins a request.
#[tactic(auto, using(crate::proofs::Starts::request_starts))]
fn begins_request(cursor: &Cursor<'_>) -> bool
    ensures { result ≡ starts (first first_of form.request_form) cursor.now }
{
    if begins_session(cursor) || begins_looking(cursor) {
        return true;
    }
    begins_changing(cursor) || begins_migrate(cursor)
}

/// The productions of requests.
#[derive(Clone, Copy)]
pub(crate) struct Requests {
    pub(crate) alloc: Global,
}

impl Requests {
    /// The values of a request at a place.
    fn values(&self, place: Place) -> Values
        ensures place { result.place ≡ place }
        ensures levels { result.levels ≡ most_levels }
    {
        Values {
            alloc: self.alloc,
            place,
            levels: MOST_LEVELS,
        }
    }

    /// `open a as User @1`
    #[tactic(auto, unfolding(text_grammar::specs::Reading::read, crate::specs::Grammar::open_form))]
    fn open(&self, cursor: &mut Cursor<'_>) -> Result<Request, Stop>
        ensures { Reads (reading most_levels form.open_form cursor.old) result cursor.new }
    {
        let values = self.values(Place::Plain);
        let head = values.head(cursor, b"open")?;
        cursor.word(TokenKind::Lower, b"as")?;
        let who = values.who(cursor)?;
        Ok(Request::Open(head.session, who, head.at))
    }

    /// `renew a`
    #[tactic(auto, unfolding(text_grammar::specs::Reading::read, crate::specs::Grammar::renew_form))]
    fn renew(&self, cursor: &mut Cursor<'_>) -> Result<Request, Stop>
        ensures { Reads (reading most_levels form.renew_form cursor.old) result cursor.new }
    {
        let values = self.values(Place::Plain);
        let head = values.head(cursor, b"renew")?;
        Ok(Request::Renew(head.session, head.at))
    }

    /// `close a`
    #[tactic(auto, unfolding(text_grammar::specs::Reading::read, crate::specs::Grammar::close_form))]
    fn close(&self, cursor: &mut Cursor<'_>) -> Result<Request, Stop>
        ensures { Reads (reading most_levels form.close_form cursor.old) result cursor.new }
    {
        let values = self.values(Place::Plain);
        let head = values.head(cursor, b"close")?;
        Ok(Request::Close(head.session, head.at))
    }

    /// `read a User @1 email`
    #[tactic(auto, unfolding(text_grammar::specs::Reading::read, crate::specs::Grammar::read_form))]
    fn read(&self, cursor: &mut Cursor<'_>) -> Result<Request, Stop>
        ensures { Reads (reading most_levels form.read_form cursor.old) result cursor.new }
    {
        let values = self.values(Place::Plain);
        let head = values.head(cursor, b"read")?;
        let spot = values.spot(cursor)?;
        let field = values.name(cursor)?;
        Ok(Request::Read(head.session, spot.model, spot.id, field, head.at))
    }

    /// `find a User {isAdmin: true}`
    #[tactic(auto, unfolding(text_grammar::specs::Reading::read, crate::specs::Grammar::find_form))]
    fn find(&self, cursor: &mut Cursor<'_>) -> Result<Request, Stop>
        ensures { Reads (reading most_levels form.find_form cursor.old) result cursor.new }
    {
        let values = self.values(Place::Plain);
        let head = values.head(cursor, b"find")?;
        let model = values.model(cursor)?;
        let conditions = values.braced_conditions(cursor)?;
        Ok(Request::Find(head.session, model, conditions, head.at))
    }

    /// `write a User @1 age 5`
    #[tactic(auto, unfolding(text_grammar::specs::Reading::read, crate::specs::Grammar::write_form))]
    fn write(&self, cursor: &mut Cursor<'_>) -> Result<Request, Stop>
        ensures { Reads (reading most_levels form.write_form cursor.old) result cursor.new }
    {
        let values = self.values(Place::Plain);
        let head = values.head(cursor, b"write")?;
        let spot = values.spot(cursor)?;
        let field = values.name(cursor)?;
        let value = values.value(cursor)?;
        Ok(Request::Write(head.session, spot.model, spot.id, field, value, head.at))
    }

    /// `create a User {age: 5}`
    #[tactic(auto, unfolding(text_grammar::specs::Reading::read, crate::specs::Grammar::create_form))]
    fn create(&self, cursor: &mut Cursor<'_>) -> Result<Request, Stop>
        ensures { Reads (reading most_levels form.create_form cursor.old) result cursor.new }
    {
        let values = self.values(Place::NewRow);
        let head = values.head(cursor, b"create")?;
        let model = values.model(cursor)?;
        let row = values.row(cursor)?;
        Ok(Request::Create(head.session, model, row, head.at))
    }

    /// `delete a User @1`
    #[tactic(auto, unfolding(text_grammar::specs::Reading::read, crate::specs::Grammar::delete_form))]
    fn delete(&self, cursor: &mut Cursor<'_>) -> Result<Request, Stop>
        ensures { Reads (reading most_levels form.delete_form cursor.old) result cursor.new }
    {
        let values = self.values(Place::Plain);
        let head = values.head(cursor, b"delete")?;
        let spot = values.spot(cursor)?;
        Ok(Request::Delete(head.session, spot.model, spot.id, head.at))
    }

    /// `migrate "t.scm"`
    #[tactic(auto, unfolding(text_grammar::specs::Reading::read, crate::specs::Grammar::migrate_form))]
    fn migrate(&self, cursor: &mut Cursor<'_>) -> Result<Request, Stop>
        ensures { Reads (reading most_levels form.migrate_form cursor.old) result cursor.new }
    {
        let word = cursor.word(TokenKind::Lower, b"migrate")?;
        let token = cursor.literal()?;
        let name = token.text(self.alloc)?;
        Ok(Request::Migrate(name, word.at()))
    }

    /// A request on a session.
    #[tactic(auto, unfolding(text_grammar::specs::Reading::read, crate::specs::Grammar::session_form))]
    fn session(&self, cursor: &mut Cursor<'_>) -> Result<Request, Stop>
        ensures { Reads (reading most_levels form.session_form cursor.old) result cursor.new }
    {
        if begins_open(cursor) {
            return self.open(cursor);
        }
        if begins_renew(cursor) {
            return self.renew(cursor);
        }
        self.close(cursor)
    }

    /// A request that looks at records.
    #[tactic(auto, unfolding(text_grammar::specs::Reading::read, crate::specs::Grammar::looking_form))]
    fn looking(&self, cursor: &mut Cursor<'_>) -> Result<Request, Stop>
        ensures { Reads (reading most_levels form.looking_form cursor.old) result cursor.new }
    {
        if begins_read(cursor) {
            return self.read(cursor);
        }
        self.find(cursor)
    }

    /// A request that changes records.
    #[tactic(auto, unfolding(text_grammar::specs::Reading::read, crate::specs::Grammar::changing_form))]
    fn changing(&self, cursor: &mut Cursor<'_>) -> Result<Request, Stop>
        ensures { Reads (reading most_levels form.changing_form cursor.old) result cursor.new }
    {
        if begins_write(cursor) {
            return self.write(cursor);
        }
        if begins_create(cursor) {
            return self.create(cursor);
        }
        self.delete(cursor)
    }

    /// A request.
    #[tactic(auto, unfolding(text_grammar::specs::Reading::read, crate::specs::Grammar::request_form))]
    fn request(&self, cursor: &mut Cursor<'_>) -> Result<Request, Stop>
        ensures { Reads (reading most_levels form.request_form cursor.old) result cursor.new }
    {
        if begins_session(cursor) {
            return self.session(cursor);
        }
        if begins_looking(cursor) {
            return self.looking(cursor);
        }
        if begins_changing(cursor) {
            return self.changing(cursor);
        }
        self.migrate(cursor)
    }

    /// A line: a request, or none where another token or none comes next.
    #[tactic(auto, unfolding(text_grammar::specs::Reading::read, crate::specs::Grammar::line_form))]
    pub(crate) fn line(&self, cursor: &mut Cursor<'_>) -> Result<Option<Request>, Stop>
        ensures { Reads (reading most_levels form.line_form cursor.old) result cursor.new }
    {
        if begins_request(cursor) {
            let request = self.request(cursor)?;
            return Ok(Some(request));
        }
        Ok(None)
    }
}
