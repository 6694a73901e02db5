ghost use Rattle.std.specs.Prelude.{◌≡◌, ◌<◌, ◌≤◌, ◌↔◌, IsTrue, Some, None, IfOk, IfErr, nat_lt, ◌&&◌};
ghost use Rattle.port_signal.specs.Name.{name_fault, may_stand};
ghost use Rattle.port_signal.specs.ReasonFault.{place_of};

use std::marker::Model;
use thiserror::Error;

/// The most bytes of a name.
pub const MAX_NAME: usize = 16;

/// A name of 1 to 16 bytes: a letter a to z, followed by letters a to z, digits or `_`. Processes, ports and kinds of
/// driver have names of this form, and so have the reasons for which processes and ports end.
#[derive(Drop, Debug)]
pub struct Reason {
    bytes: [u8; 16],
    len: usize,
}

impl Model for Reason {
    ghost use Rattle.std.specs.Prelude.{◌≡◌, ◌≤◌, List, ℕ, take, None};
    ghost use Rattle.port_signal.specs.Name.{name_fault};

    ghost Value = { List ℕ };

    ghost view = { λ r. take r.len r.bytes };

    ghost invariant = { λ r. (r.len ≤ 16) × (name_fault (take r.len r.bytes) ≡ None) };
}

/// The text is not a name. `at` is the first offending place in bytes, from 0: a byte that no name has there, the place
/// 16 of a text that is longer, or 0 of the empty text.
#[derive(Clone, Copy, Debug, PartialEq, Eq, Error)]
pub enum ReasonFault {
    #[error("not a name at byte {at}")]
    NotAName { at: u64 },
}

impl Reason {
    /// The name that these bytes spell.
    pub fn of_bytes(bytes: &[u8]) -> Result<Reason, ReasonFault>
        ensures ok { IfOk result (λ r. r ≡ bytes.now) }
        ensures name { IfOk result (λ _. name_fault bytes.now ≡ None) }
        ensures fault { IfErr result (λ f. name_fault bytes.now ≡ Some (place_of f)) }
    {
        if bytes.is_empty() {
            return Err(ReasonFault::NotAName { at: 0 });
        }
        let mut name = [0; MAX_NAME];
        for (at, byte) in bytes.iter().enumerate() {
            if !may_stand_at(at, *byte) {
                return Err(ReasonFault::NotAName { at: at as u64 });
            }
            name[at] = *byte;
        }
        Ok(Reason {
            bytes: name,
            len: bytes.len(),
        })
    }

    pub fn as_bytes(&self) -> &[u8]
        ensures value { result.now ≡ self.now }
        ensures name { name_fault self.now ≡ None }
    {
        &self.bytes[..self.len]
    }

    pub fn as_str(&self) -> &str
        ensures value { result.now ≡ self.now }
        ensures name { name_fault self.now ≡ None }
    {
        match str::from_utf8(self.as_bytes()) {
            Ok(text) => text,
            Err(_) => unreachable!(),
        }
    }

    /// Another of the same name. It takes no memory.
    pub fn same(&self) -> Reason
        ensures { result ≡ self.now }
    {
        Reason {
            bytes: self.bytes,
            len: self.len,
        }
    }

    /// Whether the two are one name.
    pub fn is(&self, other: &Reason) -> bool
        ensures { IsTrue result ↔ (self.now ≡ other.now) }
    {
        self.as_bytes() == other.as_bytes()
    }
}

/// Whether a name may have this byte at this place.
fn may_stand_at(at: usize, byte: u8) -> bool
    ensures value { result ≡ (nat_lt at 16 && may_stand at byte) }
    ensures within { IsTrue result → at < 16 }
{
    at < MAX_NAME
        && (byte.is_ascii_lowercase() || (at > 0 && (byte.is_ascii_digit() || byte == b'_')))
}
