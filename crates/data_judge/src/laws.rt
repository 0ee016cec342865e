//! Trees write one database, or one thing is wrong with them first.

ghost use Rattle.std.specs.Prelude.{List, ◌≡◌, ◌≢◌, ◌⊎◌};
ghost use Rattle.data_meaning.specs.Database.{Database};
ghost use Rattle.data_judge.specs.Judged.{IsGiven, IsRefusedFor, Writes};
ghost use Rattle.data_judge.specs.Worked.{WorkedData};
ghost use Rattle.data_judge.specs.declared.fault.Refusal.{Refusal};
ghost use Rattle.data_judge.specs.declared.limits.Limits.{Limits};
ghost use Rattle.data_tree.specs.declared.tables.TableLit.{TableLit};
ghost use Rattle.type_schema.specs.Schema.{Schema};

/// Worked texts: what is wrong with them first, and what they write.
pub fn worked_data()
    ensures { WorkedData }
{}

/// Trees write at most one database over a schema. They are given or refused, for one cause, and
/// never both, whether or not the limits are asked.
pub fn one_judgement()
    ensures some { (l : Limits) (s : Schema) (ts : List TableLit) →
        ((d : Database) × IsGiven l s ts d)
        ⊎ ((r : Refusal) × (r ≢ Refusal.OutOfMemory) × IsRefusedFor l s ts r) }
    ensures database { (s : Schema) (ts : List TableLit) (d e : Database) →
        Writes s ts d → Writes s ts e → d ≡ e }
    ensures given { (l : Limits) (s : Schema) (ts : List TableLit) (d : Database) (r : Refusal) →
        r ≢ Refusal.OutOfMemory → IsGiven l s ts d → ¬ (IsRefusedFor l s ts r) }
    ensures refusal { (l : Limits) (s : Schema) (ts : List TableLit) (r q : Refusal) →
        r ≢ Refusal.OutOfMemory → q ≢ Refusal.OutOfMemory →
        IsRefusedFor l s ts r → IsRefusedFor l s ts q → r ≡ q }
{}
