use journal_text::PortReport;
use port_model::{Items, Log, Mail, Reason};
use process_receipts::Receipts;

/// What came to a process, in the order in which it came.
pub type Mails = Log<Mail>;

/// A process as it is reported.
pub struct ProcessRecord {
    pub name: Reason,
    /// What its calls answered, in their order.
    pub receipts: Receipts,
    pub mails: Mails,
}

// Its parts go by one call, which is proved once and not in each function that may let one go.
impl Drop for ProcessRecord {
    fn drop(self) {
        let Self {
            name: _,
            receipts: _,
            mails: _,
        } = self;
    }
}

/// The report of a run: its ports and its processes, each in the order of declaration.
pub struct Report {
    pub ports: Items<PortReport>,
    pub processes: Items<ProcessRecord>,
}

// Its parts go by one call, which is proved once and not in each function that may let one go.
impl Drop for Report {
    fn drop(self) {
        let Self {
            ports: _,
            processes: _,
        } = self;
    }
}
