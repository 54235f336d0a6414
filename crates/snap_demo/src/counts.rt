//! What is counted of packets that went out.

ghost use Rattle.std.specs.Prelude.{◌≡◌, ◌+◌, ℕ, List, length, OnOk};
ghost use Rattle.snap_net.specs.Passing.{lost_in, sent_in};

use snap_core::NoMemory;
use snap_net::passing::Passed;

/// How many packets were delivered, and how many were lost.
#[derive(Clone, Copy)]
pub(crate) struct PacketCounts {
    pub(crate) delivered: u64,
    pub(crate) lost: u64,
}

impl PacketCounts {
    /// Counts what went out of a packet. So many packets that the numbers wouldn't do don't fit memory.
    pub(crate) fn add(&mut self, passed: &Passed) -> Result<(), NoMemory>
        ensures delivered { OnOk result ((k : List ℕ) → self.new.delivered ≡ self.old.delivered + length (sent_in k passed.now)) }
        ensures lost { OnOk result (self.new.lost ≡ self.old.lost + lost_in passed.now) }
    {
        self.delivered = self.delivered.checked_add(sent_in(passed)).ok_or(NoMemory)?;
        self.lost = self.lost.checked_add(lost_in(passed)).ok_or(NoMemory)?;
        Ok(())
    }
}

// How many packets went out.
fn sent_in(passed: &Passed) -> u64
    ensures { (k : List ℕ) → result ≡ length (sent_in k passed.now) }
{
    match passed {
        Passed::Alone => 1,
        Passed::Parted { copies, .. } => copies.len() as u64,
    }
}

// How many were for no port.
fn lost_in(passed: &Passed) -> u64
    ensures { result ≡ lost_in passed.now }
{
    match passed {
        Passed::Alone => 0,
        Passed::Parted { lost, .. } => *lost,
    }
}
