//! That the names of schemas are words: each law is the contract of a function that does nothing.

ghost use Rattle.std.specs.Prelude.{Contains, List, Ok, ℕ, ◌≡◌};
ghost use Rattle.type_commands.specs.Resolved.{resolved};
ghost use Rattle.data_read.specs.Words.{HasWords};
ghost use Rattle.type_schema.specs.Commands.{Command, schema_after};
ghost use Rattle.type_schema.specs.Proper.{IsProper};
ghost use Rattle.type_schema.specs.Schema.{Schema};
ghost use Rattle.type_specs.specs.Sizes.{Sizes};
ghost use Rattle.type_specs.specs.Specs.{typed_spec};
ghost use Rattle.text_tree.specs.declared.commands.Command as tree;
ghost use Rattle.text_tree.specs.declared.commands.Script.{Script};
ghost use Rattle.text_tree.specs.declared.models.Spec.{Spec};
ghost use Rattle.text_tree.specs.Texts.{IsScriptText, IsSpecText};
ghost use Rattle.type_anew.specs.Specs.{written_spec};

/// The schema of a specification that a text spells has names that are words, and so has the schema
/// after a command of a script that a text spells. A schema that is written as the same tree, as
/// one that is numbered anew, has the same names.
pub fn schemas_have_words()
    ensures specifications { (sizes : Sizes) (text : List ℕ) (x : Spec) (s : Schema) →
        IsSpecText text x → IsProper s → typed_spec sizes x ≡ Ok s → HasWords s }
    ensures commands { (text : List ℕ) (x : Script) (c : tree.Command) (s : Schema) →
        (command : Command) → IsScriptText text x → Contains x.commands c → IsProper s →
        IsProper (schema_after s command) → resolved s c ≡ Ok command → HasWords s →
        HasWords (schema_after s command) }
    ensures tree { (s t : Schema) → written_spec s ≡ written_spec t → HasWords s → HasWords t }
{}
