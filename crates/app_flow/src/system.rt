//! The outside of the running program: standard output, and the files of the current folder.
ghost use Rattle.std.specs.Prelude.{◌≡◌, ◌<◌, ◌≤◌, ◌↔◌, ℕ, List, [], ◌∷◌, length, take, Option};
ghost use Rattle.std.specs.Prelude.{IfOk, IfSome, IsTrue, MatchResult, None, OnErr, Some};
ghost use Rattle.std.specs.Io.KnownBytes.{WriteAppends, Keeps};
ghost use Rattle.app_flow.specs.Attempts.{AttemptAppends, faults_behind};
ghost use Rattle.app_flow.specs.Attempts as attempts;
ghost use Rattle.app_flow.specs.Faults.{Rose, next_count};
ghost use Rattle.app_flow.specs.Files.{Files, IsFound, IsWithin};
ghost use Rattle.app_flow.specs.Folders.{IsAbsence, IsOpened, fetch_error};
ghost use Rattle.app_flow.specs.Shelves.{faults_after};
ghost use Rattle.app_flow.specs.Told.{Appends};

use crate::outside::{Failed, Found, Shelf, ShelfErr, Sink};
use std::alloc::Global;
use std::fs::{Files, OpenFile};
use std::io::{ErrorKind, Read, Write};
use std::marker::Model;
use std::{fs, io, str};

/// Standard output, or another writer that holds nothing back.
///
/// A put fails where the writer fails or takes nothing of the piece.
#[derive(Drop)]
pub struct StdSink<W: Write> {
    writer: W,
    faults: u64,
}

// Clauses see the writer and the count of faults.
impl<W: Write> Model for StdSink<W> {
    ghost use Rattle.app_flow.specs.Adapters.{StdSinkState};

    ghost Value = { StdSinkState W };

    ghost view = { λ s. record { writer = s.writer; faults = s.faults } };
}

impl<W: Write> StdSink<W> {
    /// The sink over `writer`, as over the standard output that `main` is given.
    pub fn new(writer: W) -> StdSink<W>
        ensures { result ≡ record { writer = writer; faults = 0 } }
    {
        StdSink { writer, faults: 0 }
    }

    /// How many puts failed.
    pub fn faults(&self) -> u64
        ensures { result ≡ self.now.faults }
    {
        self.faults
    }

    /// Writes once. A failure is counted where it is met.
    fn attempt(&mut self, piece: &[u8]) -> Attempt
        requires { 0 < length piece.now }
        ensures taken { AttemptAppends (W.contents self.old.writer)
            (W.contents self.new.writer) result piece.now }
        ensures counts { self.new.faults ≡ faults_behind result self.old.faults }
        ensures rose { result ≡ Attempt.Failed → Rose self.old.faults self.new.faults }
        ensures never_falls { self.old.faults ≤ self.new.faults }
    {
        let attempt = attempt_of(self.writer.write(piece));
        if matches!(attempt, Attempt::Failed) {
            self.faults = self.faults.saturating_add(1);
        }
        attempt
    }
}

/// What one write comes to.
#[derive(Clone, Copy)]
enum Attempt {
    /// So many bytes were taken.
    Taken(usize),
    /// A signal came in between, so that the put goes on.
    Interrupted,
    /// The writer failed, or it took nothing.
    Failed,
}

/// What an answer of a writer is to a put.
fn attempt_of(answer: io::Result<usize>) -> Attempt
    ensures { result ≡ attempts.attempt_of answer }
{
    match answer {
        Ok(0) => Attempt::Failed,
        Ok(n) => Attempt::Taken(n),
        Err(e) if e.kind() == ErrorKind::Interrupted => Attempt::Interrupted,
        Err(_) => Attempt::Failed,
    }
}

impl<W: Write> Sink for StdSink<W> {
    ghost told = { λ _. None };

    ghost faults = { λ sink. sink.faults };

    fn put(&mut self, piece: &[u8]) -> Result<usize, Failed>
        requires { 0 < length piece.now }
        ensures some { IfOk result (λ n. 0 < n) }
        ensures within { IfOk result (λ n. n ≤ length piece.now) }
        ensures written { WriteAppends (W.contents self.old.writer)
            (W.contents self.new.writer) result piece.now }
        ensures counts { MatchResult result (λ _. self.new.faults
            ≡ self.old.faults) (λ _. self.new.faults ≡ next_count self.old.faults) }
        ensures counted { OnErr result (Rose self.old.faults self.new.faults) }
        ensures never_falls { self.old.faults ≤ self.new.faults }
    {
        for _ in 0..u64::MAX {
            match self.attempt(piece) {
                Attempt::Taken(n) => return Ok(n),
                Attempt::Failed => return Err(Failed),
                Attempt::Interrupted => {}
            }
        }
        self.faults = self.faults.saturating_add(1);
        Err(Failed)
    }
}

/// Where files are opened by their names.
pub trait Folder {
    type File: Read + Drop;

    // The files, where the folder tells them.
    ghost files: { Self → Option Files };

    // The names that were opened so far, in their order, where the folder tells them.
    ghost calls: { Self → Option (List (List ℕ)) };

    /// Opens the file of this name; a name that stands for no file is an error of absence.
    fn open_file(&mut self, name: &[u8]) -> io::Result<Self::File>
        ensures opened { IfSome (files self.old)
            (λ files. IsOpened Self.File.remaining (files name.now) result) }
        ensures called { Appends (calls self.old) (calls self.new) (name.now ∷ []) }
        ensures kept { files self.new ≡ files self.old };
}

/// The folder that the program runs in, through a handle as `main` is given.
///
/// A name is a path as the system takes it, and stands for no file of this folder where it is no
/// UTF-8, which is a failure.
#[derive(Drop)]
pub struct CurrentFolder<R: Files>(pub R);

impl<R: Files> Folder for CurrentFolder<R> {
    type File = R::File;

    ghost files = { λ _. None };

    ghost calls = { λ _. None };

    fn open_file(&mut self, name: &[u8]) -> io::Result<R::File> {
        let Ok(name) = str::from_utf8(name) else {
            return Err(io::Error::from(ErrorKind::InvalidInput));
        };
        let file = fs::open(&self.0, name)?;
        if file.metadata()?.is_dir() {
            return Err(io::Error::from(ErrorKind::IsADirectory));
        }
        Ok(file)
    }
}

/// The files of a folder.
///
/// Each fetch opens just the file of its name, once. A name that stands for a folder is missing, and
/// so is one that goes through a file. Any other failure is a fault. Of a file that is too long no
/// more is read than one byte above the limit.
#[derive(Drop)]
pub struct DirShelf<D: Folder> {
    folder: D,
    faults: u64,
}

// Clauses see the folder and the count of faults.
impl<D: Folder> Model for DirShelf<D> {
    ghost use Rattle.app_flow.specs.Adapters.{DirShelfState};

    ghost Value = { DirShelfState D };

    ghost view = { λ s. record { folder = s.folder; faults = s.faults } };
}

impl<D: Folder> DirShelf<D> {
    /// The shelf over `folder`.
    pub fn new(folder: D) -> DirShelf<D>
        ensures { result ≡ record { folder = folder; faults = 0 } }
    {
        DirShelf { folder, faults: 0 }
    }

    /// How many fetches met a fault.
    pub fn faults(&self) -> u64
        ensures { result ≡ self.now.faults }
    {
        self.faults
    }
}

impl<D: Folder> Shelf for DirShelf<D> {
    ghost told = { λ shelf. D.files shelf.folder };

    ghost calls = { λ shelf. D.calls shelf.folder };

    ghost faults = { λ shelf. shelf.faults };

    fn fetch(&mut self, alloc: Global, name: &[u8], limit: usize) -> Result<Found, ShelfErr>
        ensures found { IfOk result
            (λ found. IfSome (D.files self.old.folder)
            (λ files. IsFound (files name.now) limit found)) }
        ensures within { IfOk result (IsWithin limit) }
        ensures called { Appends (D.calls self.old.folder) (D.calls self.new.folder)
            (name.now ∷ []) }
        ensures kept { D.files self.new.folder ≡ D.files self.old.folder }
        ensures after { self.new.faults ≡ faults_after result self.old.faults }
        ensures counted { result ≡ Err ShelfErr.Failed → Rose self.old.faults self.new.faults }
        ensures never_falls { self.old.faults ≤ self.new.faults }
    {
        let answer = read_file(alloc, &mut self.folder, name, limit);
        if matches!(answer, Err(ShelfErr::Failed)) {
            self.faults = self.faults.saturating_add(1);
        }
        answer
    }
}

/// Opens and reads the file of this name.
fn read_file<D: Folder>(
    alloc: Global,
    folder: &mut D,
    name: &[u8],
    limit: usize,
) -> Result<Found, ShelfErr>
    ensures found { IfOk result
        (λ found. IfSome (D.files folder.old) (λ files. IsFound (files name.now) limit found)) }
    ensures within { IfOk result (IsWithin limit) }
    ensures called { Appends (D.calls folder.old) (D.calls folder.new) (name.now ∷ []) }
    ensures kept { D.files folder.new ≡ D.files folder.old }
{
    match folder.open_file(name) {
        Ok(file) => read_up_to(alloc, file, limit),
        Err(e) if is_absence(e.kind()) => Ok(Found::Missing),
        Err(e) => Err(cause_of(e.kind())),
    }
}

/// Whether a failure says that the name stands for no file.
fn is_absence(kind: ErrorKind) -> bool
    ensures { IsTrue result ↔ IsAbsence kind }
{
    matches!(
        kind,
        ErrorKind::NotFound | ErrorKind::NotADirectory | ErrorKind::IsADirectory
    )
}

/// What a failure of the system is to a fetch: a want of memory is no fault of the shelf.
fn cause_of(kind: ErrorKind) -> ShelfErr
    ensures { result ≡ fetch_error kind }
{
    match kind {
        ErrorKind::OutOfMemory => ShelfErr::OutOfMemory,
        _ => ShelfErr::Failed,
    }
}

/// Reads to the end, but no more than one byte above the limit.
fn read_up_to<R: Read + Drop>(alloc: Global, file: R, limit: usize) -> Result<Found, ShelfErr>
    ensures found { IfOk result
        (λ found. IfSome (R.remaining file) (λ bytes. IsFound (Some bytes) limit found)) }
    ensures within { IfOk result (IsWithin limit) }
{
    let mut bytes = Vec::new(alloc);
    match file
        .take((limit as u64).saturating_add(1))
        .read_to_end(&mut bytes)
    {
        Ok(n) if n > limit => Ok(Found::TooLong),
        Ok(_) => Ok(Found::Bytes(bytes)),
        Err(e) => Err(cause_of(e.kind())),
    }
}
