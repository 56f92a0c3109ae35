//! What is known of an endpoint as it is made, and the least window with which one is.
ghost use Rattle.std.specs.Prelude.{◌≡◌, Some, None};
ghost use Rattle.quic_wire_core.specs.declared.stream_id.Side.TheVariants.{Server};
ghost use Rattle.quic_time.specs.Rtt.{best_rtt};
ghost use Rattle.quic_machine.specs.declared.answers.ConfigError.TheVariants as config_errors;
ghost use Rattle.quic_machine.specs.Control.{bytes_in_flight};
ghost use Rattle.quic_machine.specs.End.{side_of};
ghost use Rattle.quic_worked.specs.Worked.{server_made, client_id};
ghost use Rattle.quic_connection_rows.specs.Rows.{refused_with};

/// Its side, the round trip that is assumed (RFC 9002, section 6.2.2), and the first id of its
/// peer; nothing is in flight, and no probe timeout has passed.
pub fn new_endpoint_is_known()
    ensures side { side_of server_made ≡ Server }
    ensures rtt { best_rtt server_made.path.rtt ≡ 333000000 }
    ensures flight { bytes_in_flight server_made ≡ 0 }
    ensures timeouts { server_made.tracking.timeouts ≡ 0 }
    ensures peer { server_made.ids.peer.id ≡ client_id }
{}

/// A window that doesn't hold two datagrams of 1200 bytes is refused (RFC 9002, section 7.2).
pub fn small_window_is_refused()
    ensures small { refused_with 2399 ≡ Some config_errors.Window }
    ensures least { refused_with 2400 ≡ None }
{}
