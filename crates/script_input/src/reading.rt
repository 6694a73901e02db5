ghost use Rattle.std.specs.Prelude.{◌≡◌, ◌++◌, [], ◌∷◌, IfOk, IfErr, OnOk, option_map};
ghost use Rattle.program_io.specs.Files.{files_view, NothingWritten};
ghost use Rattle.script_input.specs.Contents.{file_of, FilesEnd, HaveRead};

use io_vector::Piece;
use no_memory::NoMemory;
use outside::Files;
use program_io::{InputFault, read_file};
use script_plan::{Act, FileName, Step};
use std::alloc::Global;

/// The most bytes of all files that steps send.
const MAX_FILES: u64 = 33_554_432;

/// The name of the file that an act sends.
fn file_of(act: &Act) -> Option<&FileName>
    ensures { option_map (λ name. name.now) result ≡ file_of act.now }
{
    match act {
        Act::File { file, .. } => Some(file),
        _ => None,
    }
}

/// Keeps what was read behind what was read before.
fn keep(contents: &mut Vec<Piece>, bytes: Vec<u8>) -> Result<(), NoMemory>
    ensures { OnOk result (contents.new.items ≡ contents.old.items ++ bytes.items ∷ []) }
{
    contents.push(Piece::of_vec(bytes)?)?;
    Ok(())
}

/// Reads the file of each step that sends one, in the order of the steps. Each is read where what is left of 33,554,432 bytes allows it. No byte of a file is copied.
pub(crate) fn read_contents<F: Files>(
    alloc: Global,
    files: &mut F,
    steps: &[Step],
) -> Result<Vec<Piece>, InputFault>
    ensures read { IfOk result (λ contents. HaveRead (files_view F.told F.answered F.wrote F.reads F.writes files.old)
        (files_view F.told F.answered F.wrote F.reads F.writes files.new) steps.now contents.items) }
    ensures fault { IfErr result (FilesEnd steps.now (files_view F.told F.answered F.wrote F.reads F.writes files.old)
        (files_view F.told F.answered F.wrote F.reads F.writes files.new)) }
    ensures files { NothingWritten (files_view F.told F.answered F.wrote F.reads F.writes files.old)
        (files_view F.told F.answered F.wrote F.reads F.writes files.new) }
{
    let mut contents = Vec::new(alloc);
    let mut left = MAX_FILES;
    for step in steps {
        let Some(file) = file_of(&step.act) else {
            continue;
        };
        let bytes = read_file(alloc, files, file.as_str(), step.line, left)?;
        left -= bytes.len() as u64;
        keep(&mut contents, bytes)?;
    }
    Ok(contents)
}
