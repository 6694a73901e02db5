use crate::{each_wait_counts_the_commands, load_script};
use script_plan::{Act, Step};
use std::alloc::{AllocError, Global};
use std::test::Fail;

/// A step in one line of text: of a command its port, how many bytes it has, and the first of them.
fn shown(alloc: Global, step: &Step) -> Result<String, AllocError> {
    let (line, process) = (step.line, step.process);
    match &step.act {
        Act::Command { port, bytes, .. } => {
            let first = bytes.as_slice().first();
            format!(in alloc; "{line} {process} {port} {} {first:?}", bytes.len())
        }
        Act::Expect { port, count } => {
            format!(in alloc; "{line} {process} expect {port} {count}")
        }
        _ => format!(in alloc; "{line} {process}"),
    }
}

/// The first step that isn't as wanted, with its place.
fn first_wrong(
    alloc: Global,
    steps: &[Step],
    rows: &[(usize, &str)],
) -> Result<String, AllocError> {
    for (place, wanted) in rows {
        let Some(step) = steps.get(*place) else {
            return format!(in alloc; "no step {place}");
        };
        let text = shown(alloc, step)?;
        if text.as_str() != *wanted {
            return format!(in alloc; "step {place} is {text}");
        }
    }
    Ok(String::new(alloc))
}

#[test]
fn makes_the_script_of_7(rt: HostRuntime) -> Result<(), Fail> {
    let alloc = rt.alloc();
    let script = load_script(alloc, 7)?;
    assert_eq!(rt; script.processes().len(), 8);
    assert_eq!(rt; script.ports().len(), 4);
    assert_eq!(rt; script.steps().len(), 16_004);
    let rows = [
        (0, "13 0 2 41 Some(97)"),
        (1, "14 0 3 27 Some(97)"),
        (2_000, "2013 0 expect 0 4072"),
        (2_001, "2014 1 1 13 Some(98)"),
        (4_001, "4014 1 expect 1 3954"),
        (6_002, "6015 2 expect 2 4050"),
        (8_003, "8016 3 expect 3 3924"),
        (16_003, "16016 7 1 13 Some(104)"),
    ];
    let wrong = first_wrong(alloc, script.steps(), rows.as_slice())?;
    assert_eq!(rt; wrong.as_str(), "");
    each_wait_counts_the_commands();
    Ok(())
}
