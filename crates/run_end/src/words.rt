//! The words of the ports, once all who sent to them have ended.
ghost use Rattle.std.specs.Prelude.{◌≡◌, ◌<◌, All, length, map, slice_index_or, OnOk, OnErr};
ghost use Rattle.port_words.specs.busy.Known.{PortKnown};
ghost use Rattle.run_end.specs.Words.{HasJoined, IsOfTable};
ghost use Rattle.run_end.specs.Rows.{AreSeatRows, AreSeatsOfPorts, HaveJoinedRows, JoinsAt, JoinsEach};

use no_memory::NoMemory;
use port_words::busy::{PortSeat, SendSeat};
use run_lanes::transposed;
use std::alloc::Global;

/// Takes in the seats of a port's senders, and looks once more at MSGQ. Of the words that the port and its senders found or left it is then known that they are those of one port.
pub fn join_seats(port: &mut PortSeat, seats: Vec<SendSeat>)
    requires { All (IsOfTable port.old) seats.items }
    ensures { HasJoined port.old seats.items port.new }
{
    'seats: for seat in seats {
        port.join(seat);
    }
    port.look_msgq();
}

// Joins the seats of the port at a place.
fn join_at(ports: &mut Vec<PortSeat>, place: usize, seats: Vec<SendSeat>)
    requires place { place < length ports.old.items }
    requires tables { (d : PortKnown) → All (IsOfTable (slice_index_or ports.old.items place d)) seats.items }
    ensures { JoinsAt place seats.items ports.old.items ports.new.items }
{
    join_seats(&mut ports[place], seats);
}

/// Joins the seats of all ports: for each port, in their order, those of its senders.
pub fn join_columns(ports: &mut Vec<PortSeat>, columns: Vec<Vec<SendSeat>>)
    requires { AreSeatsOfPorts ports.old.items (map (λ c. c.items) columns.items) }
    ensures { JoinsEach ports.old.items (map (λ c. c.items) columns.items) ports.new.items }
{
    let mut place = 0;
    'columns: for seats in columns {
        join_at(ports, place, seats);
        place += 1;
    }
}

/// Joins the seats of all ports, which come process by process: each row has the seats of one process, one of each port, in the order of ports. Where no memory is found the rows are
/// dropped.
pub fn join_all_seats(
    alloc: Global,
    ports: &mut Vec<PortSeat>,
    rows: Vec<Vec<SendSeat>>,
) -> Result<(), NoMemory>
    requires { AreSeatRows ports.old.items (map (λ r. r.items) rows.items) }
    ensures joined { OnOk result (HaveJoinedRows ports.old.items (map (λ r. r.items) rows.items) ports.new.items) }
    ensures unchanged { OnErr result (ports.new.items ≡ ports.old.items) }
{
    let columns = transposed(alloc, rows, ports.len())?;
    join_columns(ports, columns);
    Ok(())
}
