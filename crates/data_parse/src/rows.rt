//! Records and tables.

ghost use Rattle.std.specs.List.{fold};
ghost use Rattle.std.specs.Prelude.{◌∷◌, [], if◌then◌else◌};
ghost use Rattle.data_tree.specs.Grammar as form;
ghost use Rattle.data_tree.specs.Grammar.{◌⨾◌, listed};
ghost use Rattle.text_grammar.specs.Reading.{Got, Stuck, made, starts};
ghost use Rattle.text_syntax.specs.Parts.{pushed};
ghost use Rattle.text_syntax.specs.Reads.{Reads};
ghost use Rattle.text_tree.specs.Forms.{AnyNumber, NotGrammar, Upper, each};
ghost use Rattle.data_parse.specs.Reads.{behind_comma, cons_pair, reading};

use crate::values::Values;
use data_tree::{FieldLit, RecordLit, TableLit};
use sqlite_items::Items;
use text_lexer::TokenKind;
use text_syntax::{Cursor, Stop};

impl Values {
    /// A field of a record.
    #[tactic(auto, unfolding(text_grammar::specs::Reading::read, data_tree::specs::Grammar::field_form))]
    fn field(&self, cursor: &mut Cursor<'_>) -> Result<FieldLit, Stop>
        ensures { Reads (reading self.now.levels form.field_form cursor.old) result cursor.new }
    {
        let name = cursor.lower()?.named(self.alloc)?;
        cursor.sign(TokenKind::Colon)?;
        let value = self.value(cursor)?;
        Ok(FieldLit { name, value })
    }

    /// One more after a comma.
    #[tactic(auto, unfolding(text_grammar::specs::Reading::read))]
    fn more_field(
        &self,
        cursor: &mut Cursor<'_>,
        found: Items<FieldLit>,
    ) -> Result<Items<FieldLit>, Stop>
        ensures { Reads
            (made (pushed found)
            (reading self.now.levels (behind_comma form.field_form) cursor.old)) result cursor.new }
    {
        let mut found = found;
        cursor.sign(TokenKind::Comma)?;
        let last = self.field(cursor)?;
        found.push(last)?;
        Ok(found)
    }

    /// As many more as follow.
    #[tactic(auto, unfolding(text_grammar::specs::Reading::read))]
    fn more_fields(
        &self,
        cursor: &mut Cursor<'_>,
        found: Items<FieldLit>,
    ) -> Result<Items<FieldLit>, Stop>
        ensures { Reads
            (made (fold pushed found)
            (reading self.now.levels
            (each AnyNumber (behind_comma form.field_form)) cursor.old)) result cursor.new }
    {
        let mut found = found;
        for _turn in 0..cursor.len() {
            if !cursor.sees(TokenKind::Comma) {
                return Ok(found);
            }
            found = self.more_field(cursor, found)?;
        }
        cursor.unless(TokenKind::Comma, found)
    }

    /// One or more, with commas between.
    #[tactic(auto, using(text_syntax::proofs::Folds::cons_folded), unfolding(text_grammar::specs::Reading::read))]
    fn some_fields(&self, cursor: &mut Cursor<'_>) -> Result<Items<FieldLit>, Stop>
        ensures { Reads
            (made cons_pair
            (reading self.now.levels
            (form.field_form ⨾ each AnyNumber
            (behind_comma form.field_form)) cursor.old)) result cursor.new }
    {
        let first = self.field(cursor)?;
        let mut found = Items::new(self.alloc);
        found.push(first)?;
        self.more_fields(cursor, found)
    }

    /// Any number, with commas between.
    #[tactic(auto, unfolding(text_grammar::specs::Reading::read, data_tree::specs::Grammar::field_form))]
    fn fields(&self, cursor: &mut Cursor<'_>) -> Result<Items<FieldLit>, Stop>
        ensures { Reads
            (reading self.now.levels (listed form.field_form) cursor.old) result cursor.new }
    {
        if cursor.sees_lower() {
            return self.some_fields(cursor);
        }
        Ok(Items::new(self.alloc))
    }

    /// A record.
    #[tactic(auto, using(text_syntax::proofs::Folds::made_made), unfolding(text_grammar::specs::Reading::read, data_tree::specs::Grammar::record_form))]
    fn record(&self, cursor: &mut Cursor<'_>) -> Result<RecordLit, Stop>
        ensures { Reads (reading self.now.levels form.record_form cursor.old) result cursor.new }
    {
        let (_, id) = self.written_id(cursor)?;
        cursor.sign(TokenKind::BraceOpen)?;
        let fields = self.fields(cursor)?;
        let close = cursor.sign(TokenKind::BraceClose)?;
        Ok(RecordLit {
            id,
            fields,
            end: close.at(),
        })
    }

    /// One more record.
    fn more_record(
        &self,
        cursor: &mut Cursor<'_>,
        found: Items<RecordLit>,
    ) -> Result<Items<RecordLit>, Stop>
        ensures { Reads
            (made (pushed found)
            (reading self.now.levels form.record_form cursor.old)) result cursor.new }
    {
        let mut found = found;
        let last = self.record(cursor)?;
        found.push(last)?;
        Ok(found)
    }

    /// As many more as follow.
    #[tactic(auto, unfolding(text_grammar::specs::Reading::read))]
    fn more_records(
        &self,
        cursor: &mut Cursor<'_>,
        found: Items<RecordLit>,
    ) -> Result<Items<RecordLit>, Stop>
        ensures { Reads
            (made (fold pushed found)
            (reading self.now.levels (each AnyNumber form.record_form) cursor.old))
            result cursor.new }
    {
        let mut found = found;
        for _turn in 0..cursor.len() {
            if !cursor.sees(TokenKind::At) {
                return Ok(found);
            }
            found = self.more_record(cursor, found)?;
        }
        cursor.unless(TokenKind::At, found)
    }

    /// Any number of records.
    #[tactic(auto, using(crate::proofs::Folds::folded_all))]
    fn records(&self, cursor: &mut Cursor<'_>) -> Result<Items<RecordLit>, Stop>
        ensures { Reads
            (reading self.now.levels (each AnyNumber form.record_form) cursor.old)
            result cursor.new }
    {
        self.more_records(cursor, Items::new(self.alloc))
    }

    /// A table.
    #[tactic(auto, using(text_syntax::proofs::Folds::made_made), unfolding(text_grammar::specs::Reading::read, data_tree::specs::Grammar::table_form))]
    fn table(&self, cursor: &mut Cursor<'_>) -> Result<TableLit, Stop>
        ensures { Reads (reading self.now.levels form.table_form cursor.old) result cursor.new }
    {
        let name = cursor.upper()?.named(self.alloc)?;
        let (_, next) = self.written_id(cursor)?;
        cursor.sign(TokenKind::BraceOpen)?;
        let records = self.records(cursor)?;
        cursor.sign(TokenKind::BraceClose)?;
        Ok(TableLit {
            name,
            next,
            records,
        })
    }

    /// One more table.
    fn more_table(
        &self,
        cursor: &mut Cursor<'_>,
        found: Items<TableLit>,
    ) -> Result<Items<TableLit>, Stop>
        ensures { Reads
            (made (pushed found)
            (reading self.now.levels form.table_form cursor.old)) result cursor.new }
    {
        let mut found = found;
        let last = self.table(cursor)?;
        found.push(last)?;
        Ok(found)
    }

    /// What was read, unless a table comes next.
    fn unless_table(
        &self,
        cursor: &Cursor<'_>,
        found: Items<TableLit>,
    ) -> Result<Items<TableLit>, Stop>
        ensures { Reads (if starts (Upper ∷ []) cursor.now then Stuck NotGrammar cursor.now else
            Got found cursor.now) result cursor.now }
    {
        if cursor.sees_upper() {
            Err(Stop::NotGrammar)
        } else {
            Ok(found)
        }
    }

    /// As many more as follow.
    #[tactic(auto, unfolding(text_grammar::specs::Reading::read))]
    fn more_tables(
        &self,
        cursor: &mut Cursor<'_>,
        found: Items<TableLit>,
    ) -> Result<Items<TableLit>, Stop>
        ensures { Reads
            (made (fold pushed found)
            (reading self.now.levels (each AnyNumber form.table_form) cursor.old))
            result cursor.new }
    {
        let mut found = found;
        for _turn in 0..cursor.len() {
            if !cursor.sees_upper() {
                return Ok(found);
            }
            found = self.more_table(cursor, found)?;
        }
        self.unless_table(cursor, found)
    }

    /// The tables of a database.
    #[tactic(auto, using(crate::proofs::Folds::folded_all), unfolding(data_tree::specs::Grammar::data_form))]
    pub(crate) fn tables(&self, cursor: &mut Cursor<'_>) -> Result<Items<TableLit>, Stop>
        ensures { Reads (reading self.now.levels form.data_form cursor.old) result cursor.new }
    {
        self.more_tables(cursor, Items::new(self.alloc))
    }
}
