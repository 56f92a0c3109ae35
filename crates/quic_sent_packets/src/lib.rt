//! Packets that were sent and are neither acknowledged nor lost, by number (RFC 9002, sections 2
//! and A.1.1; quinn-proto's `SentPacket` and the `sent_packets` of a `PacketSpace`).
#![tactic(auto)]

mod counts;
mod packet_map;
mod ring;
mod sent_packet;
mod sent_packets;

pub use sent_packet::SentPacket;
pub use sent_packets::SentPackets;
