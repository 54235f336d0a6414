//! The packets of an evaluation.

ghost use Rattle.std.specs.Prelude.{◌≡◌, IfOk};
ghost use Rattle.snap_core.specs.Packets.{no_packets, union, with_packet, with_packets};
ghost use Rattle.snap_core.specs.Runs.{set_after, set_in};

use crate::NoMemory;
use crate::packet::Packet;
use crate::packets::Packets;
use std::alloc::Global;

/// One packet, or packets in no order. Equal ones count once.
#[derive(Drop)]
pub enum Copies {
    One(Packet),
    Many(Vec<Packet>),
}

/// What a policy makes of a packet that it changes in place.
#[derive(Drop)]
pub enum Effect {
    /// The packet alone, as it now is.
    Same,

    /// These packets, in no order. Equal ones count once.
    Many(Vec<Packet>),
}

impl Effect {
    /// The packets, where the packet in place now is this one.
    pub(crate) fn copies(self, packet: Packet) -> Copies
        ensures { set_in result ≡ set_after self packet }
    {
        match self {
            Effect::Same => Copies::One(packet),
            Effect::Many(packets) => Copies::Many(packets),
        }
    }
}

impl Copies {
    pub(crate) fn none(alloc: Global) -> Copies
        ensures { set_in result ≡ no_packets }
    {
        Copies::Many(Vec::new(alloc))
    }

    /// Both together. The fewer go to the more, so that a chain moves each packet seldom, whichever way it leans.
    pub(crate) fn join(self, alloc: Global, other: Copies) -> Result<Copies, NoMemory>
        ensures { IfOk result (λ both. set_in both ≡ union (set_in self) (set_in other)) }
    {
        match other {
            Copies::One(packet) => self.with(alloc, packet),
            Copies::Many(packets) => self.with_all(packets),
        }
    }

    fn with(self, alloc: Global, packet: Packet) -> Result<Copies, NoMemory>
        ensures { IfOk result (λ both. set_in both ≡ with_packet (set_in self) packet) }
    {
        let mut all = self.into_vec(alloc)?;
        all.push(packet)?;
        Ok(Copies::Many(all))
    }

    fn with_all(self, mut packets: Vec<Packet>) -> Result<Copies, NoMemory>
        ensures { IfOk result (λ both. set_in both ≡ union (set_in self) (with_packets no_packets packets.items)) }
    {
        match self {
            Copies::One(packet) => {
                packets.push(packet)?;
                Ok(Copies::Many(packets))
            }
            Copies::Many(mut own) => {
                if own.len() < packets.len() {
                    packets.append(&mut own)?;
                    Ok(Copies::Many(packets))
                } else {
                    own.append(&mut packets)?;
                    Ok(Copies::Many(own))
                }
            }
        }
    }

    /// The packets in a list.
    pub(crate) fn into_vec(self, alloc: Global) -> Result<Vec<Packet>, NoMemory>
        ensures { IfOk result (λ packets. with_packets no_packets packets.items ≡ set_in self) }
    {
        match self {
            Copies::One(packet) => {
                let mut packets = Vec::new(alloc);
                packets.push(packet)?;
                Ok(packets)
            }
            Copies::Many(packets) => Ok(packets),
        }
    }

    /// The set of these packets.
    pub fn into_set(self, alloc: Global) -> Result<Packets, NoMemory>
        ensures { IfOk result (λ packets. packets ≡ set_in self) }
    {
        Packets::from_list(alloc, self.into_vec(alloc)?)
    }
}
