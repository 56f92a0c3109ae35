//! Stream IDs and the marks of IP packets.
ghost use Rattle.std.specs.Prelude.{◌≡◌, Some, None};
ghost use Rattle.quic_wire_core.specs.declared.shared.EcnCodepoint.TheVariants.{Ect0, Ect1, Ce};
ghost use Rattle.quic_wire_core.specs.declared.stream_id.Side.TheVariants.{Client, Server};
ghost use Rattle.quic_wire_core.specs.declared.stream_id.Dir.TheVariants.{Bi, Uni};
ghost use Rattle.quic_wire.specs.StreamId.{stream_id, initiator_of, dir_of, index_of};
ghost use Rattle.quic_wire.specs.Ecn.{ecn_of};

/// The four kinds of RFC 9000, section 2.1, table 1, each at its first and its sixth stream.
pub fn stream_ids_have_the_bits_of_the_table()
    ensures client_bi { stream_id Client Bi 0 ≡ 0 }
    ensures server_bi { stream_id Server Bi 0 ≡ 1 }
    ensures client_uni { stream_id Client Uni 0 ≡ 2 }
    ensures server_uni { stream_id Server Uni 0 ≡ 3 }
    ensures sixth_client_bi { stream_id Client Bi 5 ≡ 20 }
    ensures sixth_server_bi { stream_id Server Bi 5 ≡ 21 }
    ensures sixth_client_uni { stream_id Client Uni 5 ≡ 22 }
    ensures sixth_server_uni { stream_id Server Uni 5 ≡ 23 }
    ensures parts_of_20 { (initiator_of 20 ≡ Client) × (dir_of 20 ≡ Bi) × (index_of 20 ≡ 5) }
    ensures parts_of_21 { (initiator_of 21 ≡ Server) × (dir_of 21 ≡ Bi) × (index_of 21 ≡ 5) }
    ensures parts_of_22 { (initiator_of 22 ≡ Client) × (dir_of 22 ≡ Uni) × (index_of 22 ≡ 5) }
    ensures parts_of_23 { (initiator_of 23 ≡ Server) × (dir_of 23 ≡ Uni) × (index_of 23 ≡ 5) }
{}

/// A codepoint is the two low bits of a byte (RFC 3168, figure 1).
pub fn codepoints_are_the_two_low_bits()
    ensures none { ecn_of 0b00 ≡ None }
    ensures ect1 { ecn_of 0b01 ≡ Some Ect1 }
    ensures ect0 { ecn_of 0b10 ≡ Some Ect0 }
    ensures ce { ecn_of 0b1011_1011 ≡ Some Ce }
{}
