//! Shelves in memory.
ghost use Rattle.std.specs.Prelude.{◌≡◌, ◌≢◌, ◌≤◌, ◌↔◌, [], ◌∷◌, Some, IfOk, Contains};
ghost use Rattle.std.specs.Option.{option_copied};
ghost use Rattle.app_flow.specs.Faults.{Rose, next_count};
ghost use Rattle.app_flow.specs.Files.{IsFound, IsWithin};
ghost use Rattle.app_flow.specs.Shelves.{files_of, faults_after};
ghost use Rattle.app_flow.specs.Told.{Appends};

use crate::names::{Fetched, FileName};
use crate::outside::{Found, Shelf, ShelfErr};
use std::alloc::{AllocError, Global};
use std::marker::Model;

/// A file in memory.
#[derive(Drop)]
pub struct MemFile {
    name: Vec<u8>,
    bytes: Vec<u8>,
}

impl Model for MemFile {
    ghost use Rattle.app_flow.specs.Shelves.{MemFileState};

    ghost Value = { MemFileState };

    ghost view = { λ f. record { name = f.name.items; bytes = f.bytes.items } };
}

impl MemFile {
    /// The file of this name with these bytes.
    pub fn new(name: Vec<u8>, bytes: Vec<u8>) -> MemFile
        ensures { result ≡ record { name = name.items; bytes = bytes.items } }
    {
        MemFile { name, bytes }
    }

    /// Its name.
    pub fn name(&self) -> &[u8]
        ensures { result.now ≡ self.now.name }
    {
        self.name.as_slice()
    }

    /// Its bytes.
    pub fn bytes(&self) -> &[u8]
        ensures { result.now ≡ self.now.bytes }
    {
        self.bytes.as_slice()
    }
}

/// A shelf that tells its files and what was fetched, and fails where it was told to.
///
/// A fetch fails whose number, counted from 0, is in its list. Of two files with one name the first
/// is found. Each fetch keeps its name, and is without an answer where there is no memory for it.
#[derive(Drop)]
pub struct MemShelf {
    files: Vec<MemFile>,
    failing: Vec<u64>,
    calls: Fetched,
    fetches: u64,
    faults: u64,
}

impl Model for MemShelf {
    ghost use Rattle.app_flow.specs.Shelves.{MemShelfState};

    ghost Value = { MemShelfState };

    ghost view = { λ s. record {
      files = s.files.items;
      failing = s.failing.items;
      calls = s.calls;
      fetches = s.fetches;
      faults = s.faults;
    } };
}

impl MemShelf {
    /// A shelf with these files.
    pub fn new(alloc: Global, files: Vec<MemFile>, failing: Vec<u64>) -> MemShelf
        ensures { result ≡ record {
          files = files.items;
          failing = failing.items;
          calls = Some [];
          fetches = 0;
          faults = 0;
        } }
    {
        MemShelf {
            files,
            failing,
            calls: Fetched::new(alloc),
            fetches: 0,
            faults: 0,
        }
    }

    /// The names that were fetched, in their order, or `None` where there was no memory for one.
    pub fn calls(&self) -> Option<&[FileName]>
        ensures { option_copied result ≡ self.now.calls }
    {
        self.calls.names()
    }

    /// How many calls of `fetch` there were.
    pub fn fetches(&self) -> u64
        ensures { result ≡ self.now.fetches }
    {
        self.fetches
    }

    /// How many of them failed.
    pub fn faults(&self) -> u64
        ensures { result ≡ self.now.faults }
    {
        self.faults
    }
}

impl Shelf for MemShelf {
    ghost told = { λ shelf. Some (files_of shelf.files) };

    ghost calls = { λ shelf. shelf.calls };

    ghost faults = { λ shelf. shelf.faults };

    fn fetch(&mut self, alloc: Global, name: &[u8], limit: usize) -> Result<Found, ShelfErr>
        ensures found { IfOk result (IsFound (files_of self.old.files name.now) limit) }
        ensures within { IfOk result (IsWithin limit) }
        ensures called { Appends self.old.calls self.new.calls (name.now ∷ []) }
        ensures counted { result ≡ Err ShelfErr.Failed → Rose self.old.faults self.new.faults }
        ensures never_falls { self.old.faults ≤ self.new.faults }
        ensures fails { (result ≡ Err ShelfErr.Failed) ↔
            Contains self.old.failing self.old.fetches }
        ensures after { self.new ≡ record self.old {
          calls = self.new.calls;
          fetches = next_count self.old.fetches;
          faults = faults_after result self.old.faults;
        } }
    {
        let kept = self.calls.push(alloc, name);
        let fails = self.failing.contains(&self.fetches);
        self.fetches = self.fetches.saturating_add(1);
        if fails {
            self.faults = self.faults.saturating_add(1);
            return Err(ShelfErr::Failed);
        }
        kept?;
        Ok(found(alloc, file_bytes(&self.files, name), limit)?)
    }
}

/// A shelf that tells its files and what was fetched, and never fails.
///
/// Of two files with one name the first is found. Each fetch keeps its name, and is without an
/// answer where there is no memory for it.
#[derive(Drop)]
pub struct SureShelf {
    files: Vec<MemFile>,
    calls: Fetched,
}

impl Model for SureShelf {
    ghost use Rattle.app_flow.specs.Shelves.{SureShelfState};

    ghost Value = { SureShelfState };

    ghost view = { λ s. record { files = s.files.items; calls = s.calls } };
}

impl SureShelf {
    /// A shelf with these files.
    pub fn new(alloc: Global, files: Vec<MemFile>) -> SureShelf
        ensures { result ≡ record { files = files.items; calls = Some [] } }
    {
        SureShelf {
            files,
            calls: Fetched::new(alloc),
        }
    }

    /// The names that were fetched, in their order, or `None` where there was no memory for one.
    pub fn calls(&self) -> Option<&[FileName]>
        ensures { option_copied result ≡ self.now.calls }
    {
        self.calls.names()
    }
}

impl Shelf for SureShelf {
    ghost told = { λ shelf. Some (files_of shelf.files) };

    ghost calls = { λ shelf. shelf.calls };

    ghost faults = { λ _. 0 };

    fn fetch(&mut self, alloc: Global, name: &[u8], limit: usize) -> Result<Found, ShelfErr>
        ensures found { IfOk result (IsFound (files_of self.old.files name.now) limit) }
        ensures within { IfOk result (IsWithin limit) }
        ensures called { Appends self.old.calls self.new.calls (name.now ∷ []) }
        ensures sure { result ≢ Err ShelfErr.Failed }
        ensures after { self.new ≡ record self.old { calls = self.new.calls } }
    {
        self.calls.push(alloc, name)?;
        Ok(found(alloc, file_bytes(&self.files, name), limit)?)
    }
}

/// The bytes of the first file of that name.
fn file_bytes<'a>(files: &'a [MemFile], name: &[u8]) -> Option<&'a [u8]>
    ensures { option_copied result ≡ files_of files.now name.now }
{
    files
        .iter()
        .find(|file| file.name() == name)
        .map(|file| file.bytes())
}

/// What a fetch with this limit finds where a name stands for these bytes, or for none.
fn found(alloc: Global, bytes: Option<&[u8]>, limit: usize) -> Result<Found, AllocError>
    ensures found { IfOk result (IsFound (option_copied bytes.entry) limit) }
    ensures within { IfOk result (IsWithin limit) }
{
    let Some(bytes) = bytes else {
        return Ok(Found::Missing);
    };
    if bytes.len() > limit {
        return Ok(Found::TooLong);
    }
    Ok(Found::Bytes(Vec::from_slice(alloc, bytes)?))
}
