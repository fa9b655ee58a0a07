//! What files hold.
ghost use Rattle.std.specs.Prelude.{◌≡◌, ◌++◌, IfOk, map, string_bytes};
ghost use Rattle.program_input.specs.Read.{IsAllOf};
ghost use Rattle.program_input.specs.Source.{between, known_joined};

use crate::fault::ProgramFault;
use program_input::{Opens, between, read_input};
use std::alloc::Global;

/// The first of some files that was not read, and why.
#[derive(Debug, Drop)]
pub(crate) struct FileFault<'a> {
    pub name: &'a str,
    pub fault: ProgramFault,
}

/// All that the file of a name holds, up to the limit.
pub(crate) fn read_file<F: Opens>(
    alloc: Global,
    limit: usize,
    files: &F,
    name: &str,
) -> Result<Vec<u8>, ProgramFault>
    ensures { IfOk result (λ bytes. IsAllOf (F.held files.now name.now) bytes.items) }
{
    match files.open(name) {
        Ok(file) => {
            let mut file = file;
            Ok(read_input(alloc, limit, &mut file)?)
        }
        Err(fault) => Err(ProgramFault::Open(fault)),
    }
}

// The bytes of a file before those of others.
fn with_others(mut first: Vec<u8>, texts: bool, others: &[u8]) -> Result<Vec<u8>, ProgramFault>
    ensures { IfOk result (λ bytes. bytes.items ≡ first.items ++ between texts ++ others.now) }
{
    first.extend_from_slice(between(texts))?;
    first.extend_from_slice(others)?;
    Ok(first)
}

/// All that some files hold, each up to the limit, one file after the other, texts with an empty line after each.
pub(crate) fn read_files<'a, F: Opens>(
    alloc: Global,
    limit: usize,
    files: &F,
    texts: bool,
    names: &'a [String],
) -> Result<Vec<u8>, FileFault<'a>>
    ensures { IfOk result (λ bytes. IsAllOf (known_joined texts (F.held files.now) (map string_bytes names.now)) bytes.items) }
{
    match names {
        [] => Ok(Vec::new(alloc)),
        [name, others @ ..] => {
            let name = name.as_str();
            match read_file(alloc, limit, files, name) {
                Ok(first) => {
                    let rest = read_files(alloc, limit, files, texts, others)?;
                    match with_others(first, texts, &rest) {
                        Ok(bytes) => Ok(bytes),
                        Err(fault) => Err(FileFault { name, fault }),
                    }
                }
                Err(fault) => Err(FileFault { name, fault }),
            }
        }
    }
}
