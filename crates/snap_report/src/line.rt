//! Lines of a packets file.

ghost use Rattle.std.specs.Prelude.{◌≡◌, ◌^◌, ◌-◌, ◌≤◌, length, Some, IfSome, MatchOption};
ghost use Rattle.snap_core.specs.Fields.{count};
ghost use Rattle.snap_core.specs.Figures.{number_up_to};
ghost use Rattle.snap_report.specs.PacketLines.{said_by};
ghost use Rattle.snap_report.specs.Shown.{Says};

use crate::draft::PacketDraft;
use crate::words::{next_word, without_return};
use snap_core::figures::number_up_to;
use snap_core::program::Fields;

/// What a line of a packets file says.
#[derive(Clone, Copy)]
pub enum Line {
    /// Nothing: it has no words, or begins with `#`.
    Skip,

    /// A packet comes in at a port, which is its first component.
    Inject { port: u32 },
}

/// What a line says, of packets with these fields, or none exactly where the line isn't in form (`docs/FORMATS.md`, "Packet
/// lines"). The line has no LF; a CR at its end is dropped. The packet of the draft becomes the one that comes in, if one
/// does. Takes no memory.
#[inline(never)]
pub fn read_line(draft: &mut PacketDraft, fields: &Fields, line: &[u8]) -> Option<Line>
    requires { length draft.old.packet ≡ count fields.now }
    ensures said { Says (said_by fields.now line.now) draft.new.packet result }
    ensures long { length draft.new.packet ≡ length draft.old.packet }
{
    if line.first() == Some(&b'#') {
        return Some(Line::Skip);
    }
    match next_word(without_return(line)) {
        None => Some(Line::Skip),
        Some((word, rest)) => {
            let port = read_port(word)?;
            draft.reset(fields);
            draft.set_words(fields, rest)?;
            draft.packet.set(0, u64::from(port));
            Some(Line::Inject { port })
        }
    }
}

// A port's number.
fn read_port(word: &[u8]) -> Option<u32>
    ensures { MatchOption result
        (IfSome (number_up_to (2 ^ 32 - 1) word.now) (λ port. port ≡ 0))
        (λ port. (number_up_to (2 ^ 32 - 1) word.now ≡ Some port) × (1 ≤ port)) }
{
    match number_up_to(u64::from(u32::MAX), word) {
        Some(port) if 1 <= port => Some(port as u32),
        _ => None,
    }
}
