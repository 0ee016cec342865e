//! What holds of any text.

ghost use Rattle.std.specs.Prelude.{ℕ, List, ◌≡◌, ◌⊎◌};
ghost use Rattle.data_meaning.specs.Database.{Database};
ghost use Rattle.data_judge.specs.declared.limits.Limits.{Limits};
ghost use Rattle.data_read.specs.Reading.{IsRead, IsRefusedAs};
ghost use Rattle.data_read.specs.declared.read_err.ReadErr.{ReadErr};
ghost use Rattle.data_records.specs.declared.data_err.Limit.{Limit};
ghost use Rattle.type_schema.specs.Schema.{Schema};

/// A text writes one database over a schema, or it is refused for one cause at one place, and never
/// both, whether or not the limits are asked. Without them, what is read with them is read as well,
/// and what was refused for them alone.
pub fn one_reading()
    ensures some { (l : Limits) (s : Schema) (text : List ℕ) →
        ((d : Database) × IsRead l s text d) ⊎ ((err : ReadErr) × IsRefusedAs l s text err) }
    ensures one { (l : Limits) (s : Schema) (text : List ℕ) (d e : Database) →
        IsRead l s text d → IsRead l s text e → d ≡ e }
    ensures read { (l : Limits) (s : Schema) (text : List ℕ) (d : Database) (err : ReadErr) →
        IsRead l s text d → ¬ (IsRefusedAs l s text err) }
    ensures refusal { (l : Limits) (s : Schema) (text : List ℕ) (err other : ReadErr) →
        IsRefusedAs l s text err → IsRefusedAs l s text other → err ≡ other }
    ensures kept { (s : Schema) (text : List ℕ) (d : Database) →
        IsRead Limits.Asked s text d → IsRead Limits.Waived s text d }
    ensures above { (s : Schema) (text : List ℕ) (what : Limit) →
        IsRefusedAs Limits.Asked s text (ReadErr.Full what) →
        (d : Database) × IsRead Limits.Waived s text d }
    ensures full { (s : Schema) (text : List ℕ) (what : Limit) →
        ¬ (IsRefusedAs Limits.Waived s text (ReadErr.Full what)) }
{}
