//! What is in flight.
ghost use Rattle.std.specs.Prelude.{◌≡◌, ℕ, ◌<◌, ◌-◌, ◌^◌, Bool, List, ◌∷◌, length, All, IsPermutation};
ghost use Rattle.quic_paths.specs.InFlight.{Packet, Call, removed, CanJoin, CanLeave, flight_with, flight_without, flight_of, flight_after, AreLeft};

/// What is in flight after any calls is what the packets have together that are left, in whatever
/// order they went and left. So it is with one packet more, and with one less.
pub fn flights_are_sums()
    ensures calls { (calls : List Call) (packets : List Packet) → AreLeft packets calls
        → flight_after calls ≡ flight_of packets }
    ensures more { (p : Packet) (packets : List Packet)
        → flight_with (flight_of packets) p.size p.asks ≡ flight_of (p ∷ packets) }
    ensures less { (p : Packet) (packets all : List Packet) → IsPermutation (p ∷ packets) all
        → flight_without (flight_of all) p.size p.asks ≡ flight_of packets }
{}

/// Each packet that is in flight can leave, after any calls too.
pub fn packets_can_leave()
    ensures calls { (p : Packet) (packets : List Packet) (calls : List Call)
        → AreLeft packets (removed p ∷ calls) → CanLeave (flight_after calls) p.size p.asks }
    ensures each { (p : Packet) (packets all : List Packet) → IsPermutation (p ∷ packets) all
        → CanLeave (flight_of all) p.size p.asks }
{}

/// While fewer than 2^64 - 1 packets are in flight, whose sizes have 16 bits, one more can join.
pub fn packets_can_join()
    ensures { (packets : List Packet) (size : ℕ) (asks : Bool)
        → All (λ (p : Packet). p.size < 2 ^ 16) packets → length packets < 2 ^ 64 - 1
        → size < 2 ^ 16 → CanJoin (flight_of packets) size asks }
{}
