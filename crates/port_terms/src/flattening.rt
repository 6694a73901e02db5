ghost use Rattle.std.specs.Prelude.{◌≡◌, ◌++◌, IfOk, OnOk};
ghost use Rattle.port_terms.specs.IoView.{io_tree};
ghost use Rattle.port_terms.specs.Written.{flattened, flattened_all};

use crate::io_lists::{IoList, IoParts};
use no_memory::NoMemory;
use std::alloc::{AllocError, Global};

/// The bytes of an I/O list, from left to right.
pub fn flatten(alloc: Global, list: &IoList) -> Result<Vec<u8>, NoMemory>
    ensures { IfOk result (λ v. v.items ≡ flattened (io_tree list.now)) }
{
    let mut out = Vec::new(alloc);
    put_list(&mut out, list)?;
    Ok(out)
}

#[cycle(flat)]
fn put_list(out: &mut Vec<u8>, list: &IoList) -> Result<(), AllocError>
    ensures { OnOk result (out.new.items ≡ out.old.items ++ flattened (io_tree list.now)) }
{
    match list {
        IoList::Byte(byte) => out.push(*byte)?,
        IoList::Bin(octets) => out.extend_from_slice(octets.as_slice())?,
        IoList::List(parts) => put_parts(out, parts)?,
    }
    Ok(())
}

#[cycle(flat)]
fn put_parts(out: &mut Vec<u8>, parts: &IoParts) -> Result<(), AllocError>
    ensures { OnOk result (out.new.items ≡ out.old.items ++ flattened_all parts.now) }
{
    for part in &parts.items {
        put_list(out, part)?;
    }
    Ok(())
}
