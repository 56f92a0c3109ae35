//! Paths.
ghost use Rattle.std.specs.Prelude.{◌≡◌, ℕ, ◌+◌, ◌*◌, ◌-◌, ◌<◌, ◌≤◌, ◌^◌, ◌⊎◌, Bool, true, false, List, Option, Some, None};
ghost use Rattle.quic_config.specs.Transport.{TransportSettings, default_transport};
ghost use Rattle.quic_congestion.specs.NewReno.{default_reno, reno_made};
ghost use Rattle.quic_congestion.specs.Pacer.{delay_of};
ghost use Rattle.quic_paths.specs.Paths.{PathValue, new_path, next_path, path_after_reset, path_after_sent, is_blocked, Datagram, bytes_came, bytes_went, AreAllowed};
ghost use Rattle.quic_paths.specs.Worked.{drained_path, met};

/// Bytes wait exactly where the peer isn't validated and with them more would have gone than three
/// times what came, or more than 64 bits count (RFC 9000, section 8.1). Those that needn't wait are
/// counted to the byte.
pub fn bytes_wait_for_bytes<C>()
    ensures threefold { (path : PathValue C) (bytes : ℕ) → path.validated ≡ false
        → is_blocked path bytes ≡ false → path.sent + bytes ≤ 3 * path.received }
    ensures counted { (path : PathValue C) (bytes : ℕ) → path.validated ≡ false
        → is_blocked path bytes ≡ false → (path_after_sent path bytes).sent ≡ path.sent + bytes }
    ensures waits { (path : PathValue C) (bytes : ℕ) → is_blocked path bytes ≡ true
        → (3 * path.received < path.sent + bytes) ⊎ (2 ^ 64 ≤ path.sent + bytes) }
    ensures validated { (path : PathValue C) (bytes : ℕ) → path.validated ≡ true
        → is_blocked path bytes ≡ false }
{}

/// However datagrams come and go, as long as none goes that has to wait: a peer that isn't
/// validated is sent no more than three times what it sent (RFC 9000, section 8.1). So it is on a
/// new path, on one in place of another, and from any moment on at which it was so.
pub fn unvalidated_peers_get_threefold<C>()
    ensures first { (remote : ℕ) (searches : Bool) (limit : Option ℕ) (generation now window : ℕ)
        (settings : TransportSettings) (controller : C) (datagrams : List Datagram)
        → AreAllowed datagrams (new_path remote searches limit generation now settings controller window)
        → bytes_went datagrams ≤ 3 * bytes_came datagrams }
    ensures next { (remote : ℕ) (prev : PathValue C) (generation now window : ℕ)
        (datagrams : List Datagram) → AreAllowed datagrams (next_path remote prev generation now window)
        → bytes_went datagrams ≤ 3 * bytes_came datagrams }
    ensures later { (path : PathValue C) (datagrams : List Datagram) → path.validated ≡ false
        → path.sent < 2 ^ 64 → path.received < 2 ^ 64 → path.sent ≤ 3 * path.received
        → AreAllowed datagrams path
        → path.sent + bytes_went datagrams ≤ 3 * (path.received + bytes_came datagrams) }
{}

/// A new path, one in place of another, and one that was reset have the tokens for a datagram of
/// their size: asked at the moment at which they were made or reset, for any round trip and window,
/// the pacer names no later one.
pub fn fresh_paths_send_at_once<C>()
    ensures new { (remote : ℕ) (searches : Bool) (limit : Option ℕ)
        (generation now initial rtt window : ℕ) (settings : TransportSettings) (controller : C)
        → let path = new_path remote searches limit generation now settings controller initial in
        let size = path.discovery.size in
        delay_of path.pacing rtt size size window now ≡ None }
    ensures next { (remote : ℕ) (prev : PathValue C) (generation now taken rtt window : ℕ)
        → let path = next_path remote prev generation now taken in
        let size = path.discovery.size in
        delay_of path.pacing rtt size size window now ≡ None }
    ensures reset { (old : PathValue C) (now initial rtt window : ℕ) (settings : TransportSettings)
        (controller : C) → let path = path_after_reset old now settings controller initial in
        let size = path.discovery.size in
        delay_of path.pacing rtt size size window now ≡ None }
{}

/// On a path of the default settings ten datagrams of 1200 bytes took all tokens. At 5 the next one
/// waits for the 12000 bytes of a full pacer, four fifths of the round trip of 333 ms. After a
/// reset at 5 it goes.
pub fn worked_reset()
    ensures waits { delay_of drained_path.pacing 333000000 1200 1200 12000 5 ≡ Some 266400005 }
    ensures goes { let controller = reno_made default_reno 5 1200 in
        let path = path_after_reset drained_path 5 default_transport controller 12000 in
        delay_of path.pacing 333000000 1200 1200 12000 5 ≡ None }
{}

/// Of a peer that isn't validated 1200 bytes came, and 2400 went to it: 1200 more may go, and 1201
/// have to wait. Where nothing came, no byte may go. The sum of what goes ends at 2^64 - 1,
/// whatever came. To a validated peer all may go.
pub fn worked_limits<C>()
    ensures goes { (path : PathValue C) → is_blocked (met path false 1200 2400) 1200 ≡ false }
    ensures waits { (path : PathValue C) → is_blocked (met path false 1200 2400) 1201 ≡ true }
    ensures silent { (path : PathValue C) → is_blocked (met path false 0 0) 1 ≡ true }
    ensures empty { (path : PathValue C) → is_blocked (met path false 0 0) 0 ≡ false }
    ensures last { (path : PathValue C)
        → is_blocked (met path false (2 ^ 64 - 1) (2 ^ 64 - 1201)) 1200 ≡ false }
    ensures past { (path : PathValue C)
        → is_blocked (met path false (2 ^ 64 - 1) (2 ^ 64 - 1201)) 1201 ≡ true }
    ensures validated { (path : PathValue C)
        → is_blocked (met path true 0 (2 ^ 64 - 1)) 1200 ≡ false }
{}
