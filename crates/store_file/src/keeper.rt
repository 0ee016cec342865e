//! The keeper.
ghost use Rattle.std.specs.Prelude.{◌≡◌, ◌≤◌, None, IfOk, IfSome, OnErr, OnOk};
ghost use Rattle.std.specs.Option.{option_map};
ghost use Rattle.app_flow.specs.Faults.{Rose};
ghost use Rattle.data_records.specs.Views.{record_data};
ghost use Rattle.store_file.specs.Untold.{untold};
ghost use Rattle.store_keeper.specs.Changes.{with_drop, with_put};
ghost use Rattle.store_keeper.specs.Content.{changed, replaced};
ghost use Rattle.store_keeper.specs.Keepers.{faults_after};
ghost use Rattle.store_keeper.specs.Stored.{IsStored, stored_of};

use crate::database::DatabaseFile;
use data_records::Record;
use std::alloc::Global;
use std::marker::Model;
use store_keeper::{KeepErr, Keeper, Stored};
use type_schema::ModelInfo;

/// A keeper over a database file, which is opened at the first call that needs it. It tells nothing.
///
/// No file comes into being by looking: where there is none, nothing is stored, and `replace` alone
/// makes one. A file that cannot be opened (a folder, no database, one that may not be read or
/// written, or that another process has open) is a fault, which is counted, and stays as it is. A
/// want of memory is none.
#[derive(Drop)]
pub struct FileKeeper<'a> {
    file: DatabaseFile<'a>,
    faults: u64,
}

// Clauses see the count of faults.
impl<'a> Model for FileKeeper<'a> {
    ghost use Rattle.std.specs.Prelude.{ℕ};

    ghost Value = { ℕ };

    ghost view = { λ k. k.faults };
}

impl<'a> FileKeeper<'a> {
    /// The keeper over the file at the path.
    pub fn new(rt: &'a HostRuntime, path: &'a str) -> FileKeeper<'a>
        ensures { result ≡ 0 }
    {
        FileKeeper {
            file: DatabaseFile::new(rt, path),
            faults: 0,
        }
    }

    /// How many calls met a fault.
    pub fn faults(&self) -> u64
        ensures { result ≡ self.now }
    {
        self.faults
    }

    /// Copies the log into the file and closes both, if they are open. Where that fails, they hold
    /// together what they held. The next call opens them again.
    pub fn close(&mut self) -> Result<(), KeepErr>
        ensures after { self.new ≡ faults_after result self.old }
    {
        let answer = self.file.close();
        self.counted(answer)
    }

    /// The answer of a call; a fault is counted.
    fn counted<T: Drop>(&mut self, answer: Result<T, KeepErr>) -> Result<T, KeepErr>
        ensures same { result ≡ answer }
        ensures after { self.new ≡ faults_after result self.old }
        ensures counted { result ≡ Err KeepErr.Failed → Rose self.old self.new }
        ensures never_falls { self.old ≤ self.new }
    {
        if matches!(answer, Err(KeepErr::Failed)) {
            self.faults = self.faults.saturating_add(1);
        }
        answer
    }
}

impl Keeper for FileKeeper<'_> {
    ghost told = { λ _. untold };

    ghost calls = { λ _. None };

    ghost faults = { λ keeper. keeper };

    fn load(&mut self, alloc: Global) -> Result<Option<Stored>, KeepErr>
        ensures found { IfOk result
            (λ found. IfSome untold (λ held. option_map stored_of found ≡ held)) }
        ensures stored { IfOk result (λ found. IfSome found (λ s. IsStored (stored_of s))) }
        ensures after { self.new ≡ faults_after result self.old }
        ensures counted { result ≡ Err KeepErr.Failed → Rose self.old self.new }
        ensures never_falls { self.old ≤ self.new }
    {
        let answer = self.file.load(alloc);
        self.counted(answer)
    }

    fn replace(&mut self, alloc: Global, s: &Stored) -> Result<(), KeepErr>
        requires { IsStored (stored_of s.now) }
        ensures done { OnOk result (untold ≡ replaced (stored_of s.now) untold) }
        ensures kept { OnErr result (untold ≡ untold) }
        ensures after { self.new ≡ faults_after result self.old }
        ensures counted { result ≡ Err KeepErr.Failed → Rose self.old self.new }
        ensures never_falls { self.old ≤ self.new }
    {
        let answer = self.file.replace(alloc, s);
        self.counted(answer)
    }

    fn put(&mut self, alloc: Global, info: &ModelInfo, made: &Record) -> Result<(), KeepErr>
        ensures done { OnOk result (untold
            ≡ changed (with_put info.now.number (record_data made.now)) untold) }
        ensures kept { OnErr result (untold ≡ untold) }
        ensures after { self.new ≡ faults_after result self.old }
        ensures counted { result ≡ Err KeepErr.Failed → Rose self.old self.new }
        ensures never_falls { self.old ≤ self.new }
    {
        let answer = self.file.put(alloc, info, made);
        self.counted(answer)
    }

    fn drop_row(&mut self, alloc: Global, info: &ModelInfo, id: u64) -> Result<(), KeepErr>
        ensures done { OnOk result (untold
            ≡ changed (with_drop info.now.number id) untold) }
        ensures kept { OnErr result (untold ≡ untold) }
        ensures after { self.new ≡ faults_after result self.old }
        ensures counted { result ≡ Err KeepErr.Failed → Rose self.old self.new }
        ensures never_falls { self.old ≤ self.new }
    {
        let answer = self.file.drop_row(alloc, info, id);
        self.counted(answer)
    }
}
