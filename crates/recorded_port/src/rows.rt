//! How rows are written.
ghost use Rattle.std.specs.Prelude.{◌≡◌, ◌<◌, ◌≤◌, ◌+◌, ◌∷◌, ◌++◌, [], length, OnOk};
ghost use Rattle.port_words.specs.busy.Steps.{marked};
ghost use Rattle.port_words.specs.busy.Known.{port_known};
ghost use Rattle.port_model.specs.declared.row.Row.TheVariants.{Mark};
ghost use Rattle.recorded_port.specs.View.{stat_mark, CanMark};

use crate::{Driver, MarkKind, NoMemory, RecordedPort, Row};

/// The most rows of a port, 2^60.
const MAX_ROWS: u64 = 0x1000_0000_0000_0000;

impl<D: Driver> RecordedPort<D> {
    /// Makes room for so many rows, beside one for each process, which may have to be resumed. It is refused where memory is wanting, and where there would be
    /// more than 2^60 rows.
    pub fn reserve(&mut self, rows: usize) -> Result<(), NoMemory>
        ensures room { OnOk result (rows + length self.old.suspended.entries ≤ self.new.room) }
        ensures same { self.new ≡ record self.old { room = self.new.room } }
    {
        let rows = rows.saturating_add(self.suspension.places());
        let all = self.rows.len().saturating_add(rows);
        if all as u64 > MAX_ROWS {
            return Err(NoMemory);
        }
        Ok(self.rows.reserve(rows)?)
    }

    /// Writes a row behind the others. It takes no memory.
    pub(crate) fn write(&mut self, row: Row)
        requires { 0 < self.old.room }
        ensures written { self.new ≡ record self.old { rows = self.old.rows ++ row ∷ []; room = self.new.room } }
        ensures room { self.new.room + 1 ≡ self.old.room }
    {
        self.rows.push_reserved(row);
    }

    /// Writes a mark to STAT and behind the other rows. It takes no memory.
    pub(crate) fn write_mark(&mut self, kind: MarkKind)
        requires mark { CanMark kind self.old }
        requires room { 0 < self.old.room }
        ensures written { self.new ≡ record self.old { rows = self.old.rows ++ Mark kind ∷ []; room = self.new.room; seat = port_known self.old.seat.table (marked self.old.seat.known (stat_mark kind)) } }
        ensures room { self.new.room + 1 ≡ self.old.room }
    {
        match kind {
            MarkKind::Busy => self.seat.mark(true),
            MarkKind::Free => self.seat.mark(false),
            MarkKind::Closed => self.seat.mark_closed(),
        };
        self.write(Row::Mark(kind));
    }
}
