//! Commands and scripts.

ghost use Rattle.std.specs.List.{flat_map};
ghost use Rattle.std.specs.Prelude.{◌≡◌, ◌++◌, ◌∷◌, [], OnOk};
ghost use Rattle.text_print.specs.Commands.{added, because, command_line, field_rights, given_rights};
ghost use Rattle.text_print.specs.Commands.{naming, on_model, rights, spelled_command, spelled_init};
ghost use Rattle.text_print.specs.Commands.{spelled_script};
ghost use Rattle.text_print.specs.Marks.{text_of_marks};

use crate::printer::Printer;
use std::alloc::AllocError;
use text_tree::{Command, FieldDef, Init, Named, Policy, Reason, Script};

impl Printer {
    /// Writes what a new field holds at first.
    fn init(&mut self, init: &Init) -> Result<(), AllocError>
        ensures { OnOk result (self.new ≡ self.old ++ text_of_marks (spelled_init init.now)) }
    {
        match init {
            Init::Plain(e) => self.expr(e),
            Init::OfSet(set) => self.set(set),
        }
    }

    /// Writes the rights that are given, with a comma between two.
    fn given_rights(
        &mut self,
        one: &[u8],
        other: &[u8],
        first: &Option<Policy>,
        second: &Option<Policy>,
    ) -> Result<(), AllocError>
        ensures { OnOk result (self.new
            ≡ self.old ++ text_of_marks (given_rights one.now other.now first.now second.now)) }
    {
        match (first, second) {
            (None, None) => Ok(()),
            (None, Some(second)) => self.right(other, second),
            (Some(first), None) => self.right(one, first),
            (Some(first), Some(second)) => {
                self.right(one, first)?;
                self.put(b", ")?;
                self.right(other, second)?;
                Ok(())
            }
        }
    }

    /// Writes the rights that are given, in braces.
    fn rights(
        &mut self,
        one: &[u8],
        other: &[u8],
        first: &Option<Policy>,
        second: &Option<Policy>,
    ) -> Result<(), AllocError>
        ensures { OnOk result (self.new
            ≡ self.old ++ text_of_marks (rights one.now other.now first.now second.now)) }
    {
        self.put(b"{")?;
        self.given_rights(one, other, first, second)?;
        self.put(b"}")?;
        Ok(())
    }

    /// Writes a command that names a static principal or a model.
    fn naming(&mut self, word: &[u8], name: &Named) -> Result<(), AllocError>
        ensures { OnOk result (self.new ≡ self.old ++ text_of_marks (naming word.now name.now)) }
    {
        self.put(word)?;
        self.put(b"(")?;
        self.put(name.name.bytes())?;
        self.put(b")")?;
        Ok(())
    }

    /// Writes the name of a model and the word of a command to it, up to the parenthesis.
    fn on_model(&mut self, model: &Named, word: &[u8]) -> Result<(), AllocError>
        ensures { OnOk result (self.new ≡ self.old ++ text_of_marks (on_model model.now word.now)) }
    {
        self.put(model.name.bytes())?;
        self.put(b"::")?;
        self.put(word)?;
        self.put(b"(")?;
        Ok(())
    }

    /// Writes what a command that adds a field is given.
    fn added(&mut self, field: &FieldDef, x: &Named, init: &Init) -> Result<(), AllocError>
        ensures { OnOk result (self.new
            ≡ self.old ++ text_of_marks (added field.now x.now init.now)) }
    {
        self.field(field)?;
        self.put(b", ")?;
        self.put(x.name.bytes())?;
        self.put(b" -> ")?;
        self.init(init)?;
        Ok(())
    }

    /// Writes the new rights of a field, after its name.
    fn field_rights(
        &mut self,
        field: &Named,
        read: &Option<Policy>,
        write: &Option<Policy>,
    ) -> Result<(), AllocError>
        ensures { OnOk result (self.new
            ≡ self.old ++ text_of_marks (field_rights field.now read.now write.now)) }
    {
        self.put(field.name.bytes())?;
        self.put(b", ")?;
        self.rights(b"read", b"write", read, write)?;
        Ok(())
    }

    /// Writes a reason, after a comma.
    fn reason(&mut self, reason: &Reason) -> Result<(), AllocError>
        ensures { OnOk result (self.new ≡ self.old ++ text_of_marks (because reason.now)) }
    {
        self.put(b", ")?;
        self.text(reason.text.bytes())?;
        Ok(())
    }

    // Long, since each command has its own arm.
    /// Writes a command.
    fn command(&mut self, command: &Command) -> Result<(), AllocError>
        ensures { OnOk result (self.new ≡ self.old ++ text_of_marks (spelled_command command.now)) }
    {
        match command {
            Command::CreateModel(model, _) => {
                self.put(b"CreateModel(")?;
                self.model(model)?;
                self.put(b")")?;
                Ok(())
            }
            Command::DeleteModel(model, _) => self.naming(b"DeleteModel", model),
            Command::AddStatic(name, _) => self.naming(b"AddStatic", name),
            Command::RemoveStatic(name, _) => self.naming(b"RemoveStatic", name),
            Command::AddPrincipal(model, _) => self.naming(b"AddPrincipal", model),
            Command::AddField(model, field, x, init, _) => {
                self.on_model(model, b"AddField")?;
                self.added(field, x, init)?;
                self.put(b")")?;
                Ok(())
            }
            Command::RemoveField(model, field, _) => {
                self.on_model(model, b"RemoveField")?;
                self.put(field.name.bytes())?;
                self.put(b")")?;
                Ok(())
            }
            Command::UpdateFieldPolicy(model, field, read, write, _) => {
                self.on_model(model, b"UpdateFieldPolicy")?;
                self.field_rights(field, read, write)?;
                self.put(b")")?;
                Ok(())
            }
            Command::WeakenFieldPolicy(model, field, read, write, reason, _) => {
                self.on_model(model, b"WeakenFieldPolicy")?;
                self.field_rights(field, read, write)?;
                self.reason(reason)?;
                self.put(b")")?;
                Ok(())
            }
            Command::UpdatePolicy(model, create, delete, _) => {
                self.on_model(model, b"UpdatePolicy")?;
                self.rights(b"create", b"delete", create, delete)?;
                self.put(b")")?;
                Ok(())
            }
            Command::WeakenPolicy(model, create, delete, reason, _) => {
                self.on_model(model, b"WeakenPolicy")?;
                self.rights(b"create", b"delete", create, delete)?;
                self.reason(reason)?;
                self.put(b")")?;
                Ok(())
            }
        }
    }

    /// Writes commands, each on a line of its own.
    fn commands(&mut self, commands: &[Command]) -> Result<(), AllocError>
        ensures { OnOk result (self.new
            ≡ self.old ++ text_of_marks (flat_map command_line commands.now)) }
    {
        for command in commands {
            self.command(command)?;
            self.put(b"\n")?;
        }
        Ok(())
    }

    /// Writes a script.
    pub fn script(&mut self, script: &Script) -> Result<(), AllocError>
        ensures { OnOk result (self.new ≡ self.old ++ text_of_marks (spelled_script script.now)) }
    {
        self.commands(script.commands.as_slice())
    }
}
