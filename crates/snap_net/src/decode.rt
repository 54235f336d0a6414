//! Reading frames.

ghost use Rattle.std.specs.Prelude.{◌≡◌, ◌+◌, ◌∷◌, ◌*◌, ◌<◌, true, IfOk, IfErr, length};
ghost use Rattle.std.specs.Int.{to_be_bytes};
ghost use mir.Syntax.{w16, w32, w64};
ghost use Rattle.snap_net.specs.Frames.{head_bytes, head_length, packet_bytes, frame, is_tag};
ghost use Rattle.snap_net.specs.Faults.{IsFault};
ghost use Rattle.snap_net.specs.declared.decode.HeadFault.TheVariants as fault;

use snap_core::NoMemory;
use snap_core::packet::Packet;
use snap_rows::head::Head;
use std::alloc::{AllocError, AllocFailed, Global};

/// Why bytes are no frame.
#[derive(Clone, Copy, Debug, PartialEq, Eq)]
pub enum HeadFault {
    /// There are none, or fewer than the frames of this tag have.
    Short,
    /// There are more than the frames of this tag have.
    Long,
    /// The first is no tag.
    BadTag,
    /// Memory was refused.
    NoMemory,
}

impl From<AllocError> for HeadFault {
    ghost use Rattle.snap_net.specs.declared.decode.HeadFault.TheVariants.{NoMemory};

    ghost from_gives = { λ _ fault. fault ≡ NoMemory };

    fn from(_: AllocError) -> HeadFault {
        HeadFault::NoMemory
    }
}

impl<T: Drop> From<AllocFailed<T>> for HeadFault {
    ghost use Rattle.snap_net.specs.declared.decode.HeadFault.TheVariants.{NoMemory};

    ghost from_gives = { λ _ fault. fault ≡ NoMemory };

    fn from(_: AllocFailed<T>) -> HeadFault {
        HeadFault::NoMemory
    }
}

// The number that eight bytes spell.
fn long(bytes: &[u8]) -> u64
    requires { length bytes.now ≡ 8 }
    ensures { to_be_bytes w64 result ≡ bytes.now }
{
    u64::from_be_bytes([
        bytes[0], bytes[1], bytes[2], bytes[3], bytes[4], bytes[5], bytes[6], bytes[7],
    ])
}

// The number that four bytes spell.
fn middle(bytes: &[u8]) -> u32
    requires { length bytes.now ≡ 4 }
    ensures { to_be_bytes w32 result ≡ bytes.now }
{
    u32::from_be_bytes([bytes[0], bytes[1], bytes[2], bytes[3]])
}

// The number that two bytes spell.
fn short(bytes: &[u8]) -> u16
    requires { length bytes.now ≡ 2 }
    ensures { to_be_bytes w16 result ≡ bytes.now }
{
    u16::from_be_bytes([bytes[0], bytes[1]])
}

// The bytes of a head with this tag.
fn length_of(tag: u8) -> usize
    ensures { result ≡ head_length tag }
{
    if tag == 1 {
        9
    } else if tag == 3 {
        5
    } else {
        11
    }
}

// The head that these bytes spell, behind its tag.
fn head_of(tag: u8, bytes: &[u8]) -> Head
    requires tag { is_tag tag ≡ true }
    requires length { length bytes.now + 1 ≡ head_length tag }
    ensures { head_bytes result ≡ tag ∷ bytes.now }
{
    match tag {
        1 => Head::Walk { node: long(bytes) },
        2 => {
            let (leaf, stage) = bytes.split_at(8);
            Head::Stage {
                leaf: long(leaf),
                stage: short(stage),
            }
        }
        3 => Head::Out {
            port: middle(bytes),
        },
        _ => {
            let (rank, node) = bytes.split_at(2);
            Head::Visit {
                rank: short(rank),
                node: long(node),
            }
        }
    }
}

// The packet that these bytes spell.
fn packet_of(alloc: Global, bytes: &[u8], comps: u16) -> Result<Packet, HeadFault>
    requires { length bytes.now ≡ 8 * comps }
    ensures packet { IfOk result (λ packet. (packet_bytes packet ≡ bytes.now) × (length packet ≡ comps)) }
    ensures memory { IfErr result (λ fault. fault ≡ HeadFault.NoMemory) }
{
    let mut numbers = Vec::with_capacity(alloc, comps as usize)?;
    let mut rest = bytes;
    for i in 0..comps {
        let (number, behind) = rest.split_at(8);
        numbers.push(long(number))?;
        rest = behind;
    }
    Ok(Packet::new(numbers))
}

/// The head and the packet of `comps` components that a frame spells.
///
/// # Errors
///
/// `Short`, `Long` or `BadTag` exactly where the bytes have that fault; `NoMemory` for want of memory.
pub fn decode(alloc: Global, bytes: &[u8], comps: u16) -> Result<(Head, Packet), HeadFault>
    ensures frame { IfOk result (λ r. (frame r.0 r.1 ≡ bytes.now) × (length r.1 ≡ comps)) }
    ensures fault { IfErr result (IsFault bytes.now comps) }
{
    let Some((tag, rest)) = bytes.split_first() else {
        return Err(HeadFault::Short);
    };
    if *tag != 1 && *tag != 2 && *tag != 3 && *tag != 4 {
        return Err(HeadFault::BadTag);
    }
    let head = length_of(*tag);
    let whole = head + 8 * comps as usize;
    if bytes.len() < whole {
        return Err(HeadFault::Short);
    }
    if bytes.len() > whole {
        return Err(HeadFault::Long);
    }
    let (front, back) = rest.split_at(head - 1);
    let packet = packet_of(alloc, back, comps)?;
    Ok((head_of(*tag, front), packet))
}
