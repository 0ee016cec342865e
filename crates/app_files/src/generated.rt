//! The stages of `gen N`.

ghost use Rattle.std.specs.Prelude.{◌≡◌, ◌≢◌, Err, IfOk, Some};
ghost use Rattle.text_ast.specs.Words.{IsText};
ghost use Rattle.app_files.specs.Answer.{ChecksFiles, Generates};
ghost use Rattle.app_files.specs.Stages.{InMemory};
ghost use Rattle.app_files.specs.Words.{names_of};
ghost use Rattle.app_files.specs.Generated as spec;

use crate::answer::{Checked, Generated};
use crate::check::check_files;
use crate::stop::Stop;
use crate::words::{Names, word_of};
use app_flow::{MemFile, SureShelf};
use app_gen::{loosened_text, script_text, spec_text};
use std::alloc::{AllocError, Global};
use text_ast::Txt;

/// The name of the specification that is made.
const SPEC_NAME: &[u8] = b"gen.spec";

/// The name of the script that tightens the policies of each field.
const TIGHTENED_NAME: &[u8] = b"tightened.scm";

/// The name of the script that does the same, but for the last command.
const LOOSENED_NAME: &[u8] = b"loosened.scm";

/// A file of that name and text.
fn file_of(alloc: Global, name: &[u8], text: Vec<u8>) -> Result<MemFile, AllocError>
    ensures { IfOk result (λ file. file ≡ spec.file name.now text.items) }
{
    Ok(MemFile::new(Vec::from_slice(alloc, name)?, text))
}

/// The specification of so many fields and the two scripts, as files in memory.
fn files_of(alloc: Global, commands: u32) -> Result<Vec<MemFile>, AllocError>
    ensures { IfOk result (λ files. files.items ≡ spec.generated_files commands) }
{
    let spec = file_of(alloc, SPEC_NAME, spec_text(alloc, commands)?)?;
    let tightened = file_of(alloc, TIGHTENED_NAME, script_text(alloc, commands)?)?;
    let loosened = file_of(alloc, LOOSENED_NAME, loosened_text(alloc, commands)?)?;
    Ok(vec![in alloc; spec, tightened, loosened]?)
}

/// Checks the script in the file of that name, over the specification of so many fields.
fn checked_script(alloc: Global, commands: u32, name: &[u8]) -> Result<Checked, Stop>
    requires { IsText name.now }
    ensures checked { InMemory (ChecksFiles (Some (spec.generated commands))
        (names_of spec.spec_name name.now)) result }
    ensures no_fault { result ≢ Err Stop.ReadFault }
{
    let mut shelf = SureShelf::new(alloc, files_of(alloc, commands)?);
    let specification = word_of(alloc, SPEC_NAME)?;
    let script = word_of(alloc, name)?;
    let names = Names {
        spec: &specification,
        script: &script,
    };
    check_files(alloc, &mut shelf, names)
}

/// Checks the two scripts of so many commands, one after the other.
pub fn generated(alloc: Global, commands: u32) -> Result<Generated, Stop>
    ensures generates { Generates commands result }
    ensures no_fault { result ≢ Err Stop.ReadFault }
{
    let tightened = checked_script(alloc, commands, TIGHTENED_NAME)?;
    let loosened = checked_script(alloc, commands, LOOSENED_NAME)?;
    Ok(Generated {
        commands,
        tightened,
        loosened,
    })
}
