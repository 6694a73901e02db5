ghost use Rattle.std.specs.Prelude.{◌≡◌, ◌++◌, IfOk, OnOk};
ghost use Rattle.std.specs.List.{flat_map};
ghost use Rattle.port_history.specs.Counts.{saved_mail, saved_of};

use crate::report::Mails;
use no_memory::NoMemory;
use port_model::{Flag, Mail};
use std::alloc::Global;

/// What a save of the data of a port writes, in parts that lie where the mail has them: the bytes of the port's data messages in the
/// order in which they came, each that ends a line (`Eol`) followed by byte 10.
pub fn saved_parts<'a>(
    alloc: Global,
    port: u32,
    mails: &'a Mails,
) -> Result<Vec<&'a [u8]>, NoMemory>
    ensures { IfOk result (λ parts. flat_map (λ part. part.now) parts.items ≡ saved_of port mails.now) }
{
    let mut parts = Vec::new(alloc);
    for mail in mails.as_slice() {
        add_data(&mut parts, port, mail)?;
    }
    Ok(parts)
}

/// Adds the parts that are written of a mail, if it is data of the port.
fn add_data<'a>(parts: &mut Vec<&'a [u8]>, port: u32, mail: &'a Mail) -> Result<(), NoMemory>
    ensures { OnOk result (flat_map (λ part. part.now) parts.new.items ≡ flat_map (λ part. part.now) parts.old.items ++ saved_mail port mail.now) }
{
    match mail {
        Mail::Message {
            port: from,
            flag,
            bytes,
        } if *from == port => {
            parts.push(bytes.as_slice())?;
            if *flag == Flag::Eol {
                parts.push(b"\n".as_slice())?;
            }
            Ok(())
        }
        Mail::Message { .. } | Mail::Eof(_) | Mail::Status { .. } => Ok(()),
        Mail::Closed(_) | Mail::Connected(_) => Ok(()),
        Mail::Exit { .. } | Mail::Down { .. } => Ok(()),
        Mail::Reply { .. } | Mail::Resume { .. } => Ok(()),
    }
}
