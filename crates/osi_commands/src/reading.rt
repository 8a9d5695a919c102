//! The files of a command.

ghost use Rattle.std.specs.Prelude.{◌≡◌, IfOk, OnOk, OnErr};
ghost use Rattle.osi_base.specs.Outside.{logged};
ghost use Rattle.osi_commands.specs.Given.{two_files_given};
ghost use Rattle.packed_codec.specs.Laws.{HasNoAny};
ghost use Rattle.osi_commands.specs.Reading.{KeepsFiles, WasRead, KeepsCountAt, KeepsCountFor, MayAsk, ReadsSecond, ReadsTwoFiles, IsTyped, AsksTwoFiles, TwoFilesAskedFor};

use crate::answers::{Answer, cannot_read, module_refused};
use crate::commands::TwoFiles;
use module_reading::{ModuleFault, read_module};
use osi_base::{FileFault, Files, Name, NoMemory, Octets};
use std::alloc::Global;
use stub_tables::Tables;
use typed_modules::module_has_no_any;

/// What comes of reading a module and a second file.
#[derive(Debug, Drop)]
pub enum TwoFilesRead {
    /// One of them isn't read, or the module is refused.
    Answered(Answer),
    /// The module's tables, and the octets of the second file.
    Whole(Tables, Octets),
}

/// The octets of a file, or `None` where it isn't read.
pub fn read_file<F: Files>(
    alloc: Global,
    files: &mut F,
    name: &Name,
) -> Result<Option<Octets>, NoMemory>
    ensures files { KeepsFiles (F.told files.old) (F.told files.new) (F.faults files.old)
        (F.faults files.new) }
    ensures read { IfOk result (λ octets. WasRead (F.told files.old) (F.faults files.old)
        (F.faults files.new) name.now octets) }
    ensures ok_count { IfOk result (λ octets. KeepsCountAt (F.faults files.old) (F.faults files.new)
        octets) }
    ensures ok_asked { OnOk result (F.asked files.new ≡ logged name.now (F.asked files.old)) }
    ensures err_count { OnErr result (F.faults files.new ≡ F.faults files.old) }
    ensures err_asked { OnErr result (F.asked files.new ≡ F.asked files.old) }
{
    match files.read(alloc, name) {
        Ok(octets) => Ok(Some(octets)),
        Err(FileFault::Failed) => Ok(None),
        Err(FileFault::Missing) => Ok(None),
        Err(FileFault::NoMemory) => Err(NoMemory),
    }
}

/// Reads the second file, behind a module with these tables. What tells that it isn't read is made
/// before it is asked for, so that no want of memory stands between a file that failed and its
/// telling.
#[tactic(auto, using(crate::proofs::TwoFilesReading::second_none, crate::proofs::TwoFilesReading::second_some))]
fn read_second<F: Files>(
    alloc: Global,
    tables: Tables,
    name: &Name,
    files: &mut F,
) -> Result<TwoFilesRead, NoMemory>
    requires typed { HasNoAny tables.types }
    ensures files { KeepsFiles (F.told files.old) (F.told files.new) (F.faults files.old)
        (F.faults files.new) }
    ensures typed { IfOk result IsTyped }
    ensures read { IfOk result (λ read. ReadsSecond tables (F.told files.old) (F.faults files.old)
        (F.faults files.new) name.now read) }
    ensures counts { IfOk result (λ read. KeepsCountFor (F.faults files.old) (F.faults files.new)
        read) }
    ensures err_count { OnErr result (F.faults files.new ≡ F.faults files.old) }
    ensures asked { MayAsk name.now (F.asked files.old) (F.asked files.new) }
    ensures ok_asked { OnOk result (F.asked files.new ≡ logged name.now (F.asked files.old)) }
{
    let unread = cannot_read(alloc, name)?;
    match read_file(alloc, files, name)? {
        None => Ok(TwoFilesRead::Answered(unread)),
        Some(octets) => Ok(TwoFilesRead::Whole(tables, octets)),
    }
}

/// Reads the module, and then the second file. The first that is faulty decides, and a file that
/// isn't due isn't read.
#[tactic(auto, using(crate::proofs::TwoFilesReading::module_none))]
pub fn read_two_files<F: Files>(
    alloc: Global,
    named: TwoFiles<'_>,
    files: &mut F,
) -> Result<TwoFilesRead, NoMemory>
    ensures files { KeepsFiles (F.told files.old) (F.told files.new) (F.faults files.old)
        (F.faults files.new) }
    ensures typed { IfOk result IsTyped }
    ensures read { IfOk result (λ read. ReadsTwoFiles (F.told files.old) (F.faults files.old)
        (F.faults files.new) (two_files_given named.entry) read) }
    ensures counts { IfOk result (λ read. KeepsCountFor (F.faults files.old) (F.faults files.new)
        read) }
    ensures err_count { OnErr result (F.faults files.new ≡ F.faults files.old) }
    ensures asked { AsksTwoFiles (F.told files.old) (F.faults files.old) (F.faults files.new)
        (two_files_given named.entry) (F.asked files.old) (F.asked files.new) }
    ensures asked_for { IfOk result (λ read. TwoFilesAskedFor (two_files_given named.entry)
        (F.asked files.old) (F.asked files.new) read) }
{
    let unread = cannot_read(alloc, named.module)?;
    let Some(text) = read_file(alloc, files, named.module)? else {
        return Ok(TwoFilesRead::Answered(unread));
    };
    let octets = text.as_slice();
    module_has_no_any(octets);
    match read_module(alloc, octets) {
        Ok(tables) => {
            let read = read_second(alloc, tables, named.second, files)?;
            Ok(read)
        }
        Err(ModuleFault::At { line, column, kind }) => {
            let answer = module_refused(alloc, line, column, kind)?;
            Ok(TwoFilesRead::Answered(answer))
        }
        Err(ModuleFault::NoMemory) => Err(NoMemory),
    }
}
