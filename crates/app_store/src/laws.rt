//! What holds of the answers to any command, over files and a store that tell what they hold.

ghost use Rattle.std.specs.Prelude.{List, Option, Some};
ghost use Rattle.app_flow.specs.Files.{Files};
ghost use Rattle.app_files.specs.Answer.{AreAlike};
ghost use Rattle.store_keeper.specs.Stored.{Stored};
ghost use Rattle.app_store.specs.Answer.{Runs, end_of, status_of};
ghost use Rattle.app_store.specs.Calls.{Call};
ghost use Rattle.app_store.specs.Told.{told_all};
ghost use Rattle.app_store.specs.Words.{Command};
ghost use Rattle.app_store.specs.declared.answer.StoreAnswer.{StoreAnswer};

/// A command has answers of one status over any files and whatever is stored, but that of two
/// answers one may be a leak where the other is no decision. So an answer of any other status
/// excludes all other statuses.
pub fn one_store_status()
    ensures { (files : Files) (held : Option Stored) (command : Command) (calls others : List Call)
        (answer other : StoreAnswer) →
        Runs (told_all files held) command calls (end_of answer) →
        Runs (told_all files held) command others (end_of other) →
        AreAlike (status_of answer) (status_of other) }
{}
