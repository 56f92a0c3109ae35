//! The definitions computed on a write of several buffers, and a machine that counts them wrongly.
//! Each function does nothing: its contract is the law.
ghost use Rattle.std.specs.Prelude.{◌≡◌, ℕ, List};
ghost use Rattle.std.specs.declared.vec.Vec.{Vec};
ghost use Rattle.std.specs.declared.alloc.Global.{Global};
ghost use Rattle.quic_wire_core.specs.declared.stream_id.Side.TheVariants.{Client};
ghost use Rattle.quic_headline.specs.Runs.{until, written};
ghost use Rattle.quic_headline.specs.Headline.{IsHonest, IsRun};
ghost use Rattle.quic_headline.specs.Buffers.{BuffersAreCounted};
ghost use Rattle.quic_worked.specs.Worked.{hello};
ghost use Rattle.quic_worked.specs.Broken.{IsNoRun};
ghost use Rattle.quic_worked.specs.Chunked.{two_buffers, chunks_sent, chunked_run, buffer_lost};

/// `hello`, written in two buffers, goes in the datagram of the worked run; a machine that counts
/// one buffer of the two is none.
pub fn buffers_are_written()
    ensures run { (buffers : Vec (List ℕ) Global) → buffers.items ≡ two_buffers
        → IsRun (chunked_run buffers) chunks_sent }
    ensures written { (buffers : Vec (List ℕ) Global) → buffers.items ≡ two_buffers
        → written 0 (until (chunked_run buffers) Client 4) ≡ hello }
    ensures machine { (buffers : Vec (List ℕ) Global) → buffers.items ≡ two_buffers
        → IsNoRun (buffer_lost buffers) }
{}

/// Both buffers are counted, of which all bytes were taken.
pub fn buffers_are_counted()
    ensures right { (buffers : Vec (List ℕ) Global) → buffers.items ≡ two_buffers
        → BuffersAreCounted (chunked_run buffers) }
{}

/// Writing: a client takes all bytes of two buffers, and says that it took up one.
pub fn uncounted_buffer_shows()
    ensures counted { (buffers : Vec (List ℕ) Global) → buffers.items ≡ two_buffers
        → BuffersAreCounted (buffer_lost buffers) → ⊥ }
    ensures premises { (buffers : Vec (List ℕ) Global) → IsHonest (buffer_lost buffers) }
    ensures machine { (buffers : Vec (List ℕ) Global) → buffers.items ≡ two_buffers
        → IsNoRun (buffer_lost buffers) }
{}
