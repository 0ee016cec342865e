//! Policies, types, fields, models and specifications.

ghost use Rattle.std.specs.List.{flat_map};
ghost use Rattle.std.specs.Prelude.{◌≡◌, ◌++◌, ◌∷◌, [], OnOk, map};
ghost use Rattle.text_lexer.specs.declared.token.TokenKind.TheVariants.{Comma};
ghost use Rattle.text_print.specs.Exprs.{joined};
ghost use Rattle.text_print.specs.Marks.{sign, sp, text_of_marks};
ghost use Rattle.text_print.specs.Models.{entry_line, field_line, id_of, model_head, model_lines};
ghost use Rattle.text_print.specs.Models.{principal_mark, right, rights_of_field, spelled_base};
ghost use Rattle.text_print.specs.Models.{spelled_field, spelled_model, spelled_policy, spelled_spec};
ghost use Rattle.text_print.specs.Models.{spelled_type, static_line};

use crate::printer::Printer;
use std::alloc::AllocError;
use text_tree::{Base, FieldDef, ModelDef, Named, Policy, Spec, Ty};

/// What stands before `model`.
fn principal_mark(principal: bool) -> &'static [u8]
    ensures { result.now ≡ text_of_marks (principal_mark principal) }
{
    if principal { b"principal " } else { b"" }
}

impl Printer {
    /// Writes a policy.
    pub fn policy(&mut self, policy: &Policy) -> Result<(), AllocError>
        ensures { OnOk result (self.new ≡ self.old ++ text_of_marks (spelled_policy policy.now)) }
    {
        match policy {
            Policy::Everyone(_) => self.put(b"public"),
            Policy::Nobody(_) => self.put(b"none"),
            Policy::Fun(x, set) => {
                self.put(x.name.bytes())?;
                self.put(b" -> ")?;
                self.set(set)?;
                Ok(())
            }
        }
    }

    /// Writes a right: its word, and its policy after a colon.
    pub(crate) fn right(&mut self, word: &[u8], policy: &Policy) -> Result<(), AllocError>
        ensures { OnOk result (self.new ≡ self.old ++ text_of_marks (right word.now policy.now)) }
    {
        self.put(word)?;
        self.put(b": ")?;
        self.policy(policy)?;
        Ok(())
    }

    /// Writes the type of the records of a model.
    fn id_of(&mut self, model: &Named) -> Result<(), AllocError>
        ensures { OnOk result (self.new ≡ self.old ++ text_of_marks (id_of model.now)) }
    {
        self.put(b"Id(")?;
        self.put(model.name.bytes())?;
        self.put(b")")?;
        Ok(())
    }

    /// Writes a base type.
    fn base(&mut self, base: &Base) -> Result<(), AllocError>
        ensures { OnOk result (self.new ≡ self.old ++ text_of_marks (spelled_base base.now)) }
    {
        match base {
            Base::Bool(_) => self.put(b"Bool"),
            Base::Int(_) => self.put(b"Int"),
            Base::Text(_) => self.put(b"Text"),
            Base::Id(model, _) => self.id_of(model),
        }
    }

    /// Writes the type of a field.
    fn ty(&mut self, ty: &Ty) -> Result<(), AllocError>
        ensures { OnOk result (self.new ≡ self.old ++ text_of_marks (spelled_type ty.now)) }
    {
        match ty {
            Ty::Plain(base) => self.base(base),
            Ty::Set(model, _) => {
                self.put(b"Set(")?;
                self.id_of(model)?;
                self.put(b")")?;
                Ok(())
            }
            Ty::Opt(base, _) => {
                self.put(b"Option(")?;
                self.base(base)?;
                self.put(b")")?;
                Ok(())
            }
        }
    }

    /// Writes the two rights of a field, in braces.
    fn rights_of_field(&mut self, field: &FieldDef) -> Result<(), AllocError>
        ensures { OnOk result (self.new ≡ self.old ++ text_of_marks (rights_of_field field.now)) }
    {
        self.put(b"{")?;
        self.right(b"read", &field.read)?;
        self.put(b", ")?;
        self.right(b"write", &field.write)?;
        self.put(b"}")?;
        Ok(())
    }

    /// Writes a field.
    pub(crate) fn field(&mut self, field: &FieldDef) -> Result<(), AllocError>
        ensures { OnOk result (self.new ≡ self.old ++ text_of_marks (spelled_field field.now)) }
    {
        self.put(field.name.name.bytes())?;
        self.put(b": ")?;
        self.ty(&field.ty)?;
        self.put(b" ")?;
        self.rights_of_field(field)?;
        Ok(())
    }

    /// Writes what stands before the brace of a model.
    fn model_head(&mut self, model: &ModelDef) -> Result<(), AllocError>
        ensures { OnOk result (self.new ≡ self.old ++ text_of_marks (model_head model.now)) }
    {
        self.put(principal_mark(model.principal))?;
        self.put(b"model ")?;
        self.put(model.name.name.bytes())?;
        self.put(b" ")?;
        Ok(())
    }

    /// Writes fields, each after a comma.
    fn more_fields(&mut self, fields: &[FieldDef]) -> Result<(), AllocError>
        ensures { OnOk result (self.new
            ≡ self.old ++ text_of_marks (joined (sign Comma ∷ sp
            ∷ []) (map spelled_field fields.now))) }
    {
        for field in fields {
            self.put(b", ")?;
            self.field(field)?;
        }
        Ok(())
    }

    /// Writes a model on one line.
    pub(crate) fn model(&mut self, model: &ModelDef) -> Result<(), AllocError>
        ensures { OnOk result (self.new ≡ self.old ++ text_of_marks (spelled_model model.now)) }
    {
        self.model_head(model)?;
        self.put(b"{")?;
        self.right(b"create", &model.create)?;
        self.put(b", ")?;
        self.right(b"delete", &model.delete)?;
        self.more_fields(model.fields.as_slice())?;
        self.put(b"}")?;
        Ok(())
    }

    /// Writes a right of a model on a line of its own.
    fn right_line(&mut self, word: &[u8], policy: &Policy) -> Result<(), AllocError>
        ensures { OnOk result (self.new
            ≡ self.old ++ text_of_marks (entry_line (right word.now policy.now))) }
    {
        self.put(b"  ")?;
        self.right(word, policy)?;
        self.put(b",\n")?;
        Ok(())
    }

    /// Writes a field on a line of its own.
    fn field_line(&mut self, field: &FieldDef) -> Result<(), AllocError>
        ensures { OnOk result (self.new ≡ self.old ++ text_of_marks (field_line field.now)) }
    {
        self.put(b"  ")?;
        self.field(field)?;
        self.put(b",\n")?;
        Ok(())
    }

    /// Writes fields, each on a line of its own.
    fn field_lines(&mut self, fields: &[FieldDef]) -> Result<(), AllocError>
        ensures { OnOk result (self.new
            ≡ self.old ++ text_of_marks (flat_map field_line fields.now)) }
    {
        for field in fields {
            self.field_line(field)?;
        }
        Ok(())
    }

    /// Writes a model on lines.
    fn model_lines(&mut self, model: &ModelDef) -> Result<(), AllocError>
        ensures { OnOk result (self.new ≡ self.old ++ text_of_marks (model_lines model.now)) }
    {
        self.model_head(model)?;
        self.put(b"{\n")?;
        self.right_line(b"create", &model.create)?;
        self.right_line(b"delete", &model.delete)?;
        self.field_lines(model.fields.as_slice())?;
        self.put(b"}\n")?;
        Ok(())
    }

    /// Writes a static principal on a line of its own.
    fn static_line(&mut self, name: &Named) -> Result<(), AllocError>
        ensures { OnOk result (self.new ≡ self.old ++ text_of_marks (static_line name.now)) }
    {
        self.put(b"static ")?;
        self.put(name.name.bytes())?;
        self.put(b"\n")?;
        Ok(())
    }

    /// Writes static principals, each on a line of its own.
    fn statics(&mut self, statics: &[Named]) -> Result<(), AllocError>
        ensures { OnOk result (self.new
            ≡ self.old ++ text_of_marks (flat_map static_line statics.now)) }
    {
        for name in statics {
            self.static_line(name)?;
        }
        Ok(())
    }

    /// Writes models on lines.
    fn models(&mut self, models: &[ModelDef]) -> Result<(), AllocError>
        ensures { OnOk result (self.new
            ≡ self.old ++ text_of_marks (flat_map model_lines models.now)) }
    {
        for model in models {
            self.model_lines(model)?;
        }
        Ok(())
    }

    /// Writes a specification.
    pub fn spec(&mut self, spec: &Spec) -> Result<(), AllocError>
        ensures { OnOk result (self.new ≡ self.old ++ text_of_marks (spelled_spec spec.now)) }
    {
        self.statics(spec.statics.as_slice())?;
        self.models(spec.models.as_slice())?;
        Ok(())
    }
}
