ghost use Rattle.std.specs.Prelude.{◌≡◌, ◌<◌, ◌++◌, [], ◌∷◌, All, IfOk, OnOk, is_some, length, true, ◌+◌};
ghost use Rattle.std.specs.Vec.Iter.{into_iter_items, into_iter_len};
ghost use Rattle.std.specs.Option.{option_to_list};
ghost use Rattle.script_input.specs.Contents.{file_of};
ghost use Rattle.script_input.specs.StepsDealt.{sending, AreStepsOfAll};

use io_vector::Piece;
use no_memory::NoMemory;
use run_lanes::next_of;
use run_opening::ProcessSteps;
use script_plan::{Act, PortDecl, Step};
use std::alloc::Global;
use std::collections::VecDeque;
use std::vec::IntoIter;

/// For how many rows all ports together get room before a run, at most.
const MOST_ROWS: usize = 1_048_576;

/// So many processes that do nothing.
fn empty_steps(alloc: Global, processes: usize) -> Result<Vec<ProcessSteps>, NoMemory>
    ensures { IfOk result (λ process_steps. AreStepsOfAll processes [] [] process_steps.items) }
{
    let mut process_steps = Vec::new(alloc);
    for _process in 0..processes {
        process_steps.push(ProcessSteps {
            steps: VecDeque::new(alloc),
            files: VecDeque::new(alloc),
        })?;
    }
    Ok(process_steps)
}

/// The content of the file that a step sends, if it sends one: the next of what is left.
fn next_content(step: &Step, contents: &mut IntoIter<Piece>) -> Option<Piece>
    requires { is_some (file_of step.now.act) ≡ true → 0 < into_iter_len contents.old }
    ensures content { into_iter_items contents.old ≡ option_to_list result ++ into_iter_items contents.new }
    ensures len { into_iter_len contents.old ≡ length (option_to_list result) + into_iter_len contents.new }
    ensures sends { is_some result ≡ is_some (file_of step.now.act) }
{
    match step.act {
        Act::File { .. } => Some(next_of(contents)),
        _ => None,
    }
}

/// One more step of a process, with the content of the file that it sends.
fn add_step(
    own_steps: &mut ProcessSteps,
    step: Step,
    content: Option<Piece>,
) -> Result<(), NoMemory>
    ensures steps { OnOk result (own_steps.new.steps.items ≡ own_steps.old.steps.items ++ step ∷ []) }
    ensures files { OnOk result (own_steps.new.files.items ≡ own_steps.old.files.items ++ option_to_list content) }
{
    if let Some(content) = content {
        own_steps.files.push_back(content)?;
    }
    own_steps.steps.push_back(step)?;
    Ok(())
}

/// For how many rows each port gets room: an even share of one for each step and one for each piece of a file, and an eighth more, since steps are seldom shared evenly.
pub(crate) fn rows_of(steps: &[Step], contents: &[Piece], ports: &[PortDecl]) -> usize {
    let mut rows = steps.len();
    let mut contents = contents.iter();
    for step in steps {
        if let Act::File { size, .. } = &step.act
            && let Some(content) = contents.next()
        {
            let pieces = content.len().checked_div(*size as usize);
            rows = rows.saturating_add(pieces.unwrap_or(0));
        }
    }
    rows.saturating_add(rows / 8).min(MOST_ROWS) / ports.len().max(1)
}

/// What each of so many processes does, by the steps of all and the contents of the files that they send, each in the order of the script.
pub(crate) fn deal_steps(
    alloc: Global,
    processes: usize,
    steps: Vec<Step>,
    contents: Vec<Piece>,
) -> Result<Vec<ProcessSteps>, NoMemory>
    requires senders { All (λ s. s.process < processes) steps.items }
    requires many { length contents.items ≡ length (sending steps.items) }
    ensures { IfOk result (λ process_steps. AreStepsOfAll processes steps.items contents.items process_steps.items) }
{
    let mut process_steps = empty_steps(alloc, processes)?;
    let mut contents = contents.into_iter();
    for step in steps {
        let content = next_content(&step, &mut contents);
        add_step(&mut process_steps[step.process as usize], step, content)?;
    }
    Ok(process_steps)
}
