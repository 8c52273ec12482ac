//! The shelf of the system's files. That a file holds what its reads give is trusted, and no part of any proof.

ghost use Rattle.std.specs.Prelude.{◌≡◌, ◌≢◌, ◌≤◌, ◌⊎◌, ◌++◌, length, None, IfOk, IfSome, OnOk};
ghost use Rattle.std.specs.Str.{IsUtf8};
ghost use Rattle.dl_outside.specs.Prelude.{one_more, FileAnswers, GaveFile, OpenAnswers, ReadAnswers, ReadsOn};

use crate::count::{Counts, raise};
use crate::shelf::{LoadFault, Shelf};
use csp_base::Bytes;
use std::alloc::Global;
use std::fs::File;
use std::io::{ErrorKind, Read};
use std::marker::Model;
use std::rt::Files;

/// The system's files, and the counts of the errors that were met and of the bytes that were read.
pub struct FileShelf<'a, R> {
    files: &'a R,
    counts: Counts,
}

impl<'a, R> Model for FileShelf<'a, R> {
    ghost use Rattle.dl_outside.specs.declared.count.Counts.{Counts};

    ghost Value = { Counts };

    ghost view = { λ s. s.counts };
}

impl<R> Drop for FileShelf<'_, R> {
    fn drop(self) {
        let FileShelf {
            files: _,
            counts: _,
        } = self;
    }
}

/// Opens the file of this name. A name that is no text is that of no file.
fn open_file<R: Files>(files: &R, name: &[u8], faults: &mut u64) -> Result<R::File, LoadFault>
    ensures answer { OpenAnswers faults.old faults.new result }
    ensures never_falls { faults.old ≤ faults.new }
    ensures text { OnOk result (IsUtf8 name.now) }
    ensures no_text { ¬ (IsUtf8 name.now) → result ≡ Err LoadFault.Missing }
{
    let Ok(path) = str::from_utf8(name) else {
        *faults = raise(*faults);
        return Err(LoadFault::Missing);
    };
    match File::open(files, path) {
        Ok(file) => Ok(file),
        Err(error) => {
            *faults = raise(*faults);
            Err(fault_of(error.kind()))
        }
    }
}

/// What an error of this kind says of a file that was to be opened.
fn fault_of(kind: ErrorKind) -> LoadFault
    ensures { (result ≡ LoadFault.Missing) ⊎ (result ≡ LoadFault.Failed) }
{
    if kind == ErrorKind::NotFound {
        LoadFault::Missing
    } else {
        LoadFault::Failed
    }
}

/// Counts a fault: a read failed, or gave more bytes than are counted.
fn count_failure(faults: &mut u64) -> LoadFault
    ensures fault { result ≡ LoadFault.Failed }
    ensures counted { faults.new ≡ one_more faults.old }
    ensures never_falls { faults.old ≤ faults.new }
{
    *faults = raise(*faults);
    LoadFault::Failed
}

/// Appends what one read gives, and answers how many bytes that are: none at the end.
fn read_piece<R: Read>(
    reader: &mut R,
    text: &mut Bytes,
    counts: &mut Counts,
) -> Result<usize, LoadFault>
    ensures answer { ReadAnswers (length text.old) (length text.new) counts.old counts.new result }
    ensures reads { IfOk result (ReadsOn (R.remaining reader.old) (R.remaining reader.new) text.old text.new) }
    ensures never_falls { counts.old.faults ≤ counts.new.faults }
{
    let mut piece = [0u8; 4096];
    match reader.read(&mut piece) {
        Ok(count) => append(&piece[..count], text, counts),
        Err(_) => Err(count_failure(&mut counts.faults)),
    }
}

/// Appends a piece that was read, and answers how many bytes it has.
fn append(piece: &[u8], text: &mut Bytes, counts: &mut Counts) -> Result<usize, LoadFault>
    ensures answer { ReadAnswers (length text.old) (length text.new) counts.old counts.new result }
    ensures appended { IfOk result (λ n. (text.new ≡ text.old ++ piece.now) × (n ≡ length piece.now)) }
    ensures never_falls { counts.old.faults ≤ counts.new.faults }
{
    let Some(taken) = counts.taken.checked_add(piece.len() as u64) else {
        return Err(count_failure(&mut counts.faults));
    };
    counts.taken = taken;
    text.extend_from_slice(piece)?;
    Ok(piece.len())
}

/// Reads to the end, or until more than `limit` bytes are there, which is the fault `TooLong`. `Failed` is a read that failed, or gave more bytes than
/// are counted.
pub fn read_text<R: Read>(
    alloc: Global,
    reader: &mut R,
    limit: u32,
    counts: &mut Counts,
) -> Result<Bytes, LoadFault>
    ensures answer { FileAnswers counts.old counts.new limit result }
    ensures whole { IfOk result (λ text. IfSome (R.remaining reader.old) (λ bytes. text ≡ bytes)) }
    ensures not_missing { result ≢ Err LoadFault.Missing }
    ensures faults_never_fall { counts.old.faults ≤ counts.new.faults }
    ensures taken_never_falls { counts.old.taken ≤ counts.new.taken }
{
    let mut text = Bytes::new(alloc);
    while text.len() <= limit as usize {
        if read_piece(reader, &mut text, counts)? == 0 {
            return Ok(text);
        }
    }
    Err(LoadFault::TooLong)
}

impl<'a, R> FileShelf<'a, R> {
    /// The shelf of these files. Nothing was loaded from it yet.
    pub fn new(files: &'a R) -> Self
        ensures { result ≡ record { faults = 0; taken = 0 } }
    {
        let counts = Counts {
            faults: 0,
            taken: 0,
        };
        FileShelf { files, counts }
    }
}

impl<R: Files> Shelf for FileShelf<'_, R> {
    ghost texts = { λ _. None };

    ghost counts = { λ s. s };

    ghost gives = { λ old new name text. GaveFile R.File.remaining old new name text };

    fn load(&mut self, alloc: Global, name: &[u8], limit: u32) -> Result<Bytes, LoadFault>
        ensures given { IfOk result (GaveFile R.File.remaining self.old self.new name.now) }
        ensures answer { FileAnswers self.old self.new limit result }
        ensures faults_never_fall { self.old.faults ≤ self.new.faults }
        ensures taken_never_falls { self.old.taken ≤ self.new.taken }
        ensures no_text { ¬ (IsUtf8 name.now) → result ≡ Err LoadFault.Missing }
    {
        let mut file = open_file(self.files, name, &mut self.counts.faults)?;
        read_text(alloc, &mut file, limit, &mut self.counts)
    }
}
