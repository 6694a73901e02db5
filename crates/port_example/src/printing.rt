//! What a process got, and what a port did.
use anyhow::Result;
use port_model::{Mail, Row};
use process_end::Proc;
use std::sync::Wait;

/// Takes the mail of a process out of its mailbox, oldest first, and prints it.
pub(crate) fn print_mail<R: Print + Wait>(rt: &R, process: &mut Proc) -> Result<()> {
    for _ in rt.forever() {
        match process.mail(rt) {
            Some(mail) => print_one(rt, &mail)?,
            None => break,
        }
    }
    Ok(())
}

fn print_one<R: Print>(rt: &R, mail: &Mail) -> Result<()> {
    match mail {
        Mail::Message { bytes, .. } => {
            println!(rt; "data {}", str::from_utf8(bytes.as_slice()).unwrap_or("-"))?;
        }
        Mail::Exit { reason, .. } => println!(rt; "exit signal {}", reason.as_str())?,
        Mail::Closed(_) => println!(rt; "closed")?,
        _ => println!(rt; "another mail")?,
    }
    Ok(())
}

/// Prints the rows of a history: each signal that was handled, with how much its driver did, and each mark.
pub(crate) fn print_rows<R: Print>(rt: &R, rows: &[Row]) -> Result<()> {
    for row in rows {
        match row {
            Row::Handled { seq, effects, .. } => {
                println!(rt;
                    "signal {seq} was handled, effects: {}",
                    effects.as_slice().len()
                )?;
            }
            Row::Mark(kind) => println!(rt; "the port was marked {kind:?}")?,
            _ => println!(rt; "another row")?,
        }
    }
    Ok(())
}
