//! Why rules of the transport are broken, for people to read.
ghost use Rattle.std.specs.Prelude.{◌≡◌};
ghost use Rattle.quic_wire_core.specs.Reason.{reason_text};

/// Why an end says that a rule of the transport was broken: a text for people, that takes no
/// memory.
#[derive(Clone, Copy, Debug, PartialEq, Eq)]
pub enum Reason {
    /// Nothing is said.
    Unsaid,
    /// A frame or a parameter ends too early.
    UnexpectedEnd,
    /// It isn't formed as its type says.
    Malformed,
    /// No frame has this type.
    InvalidFrameId,
    /// A parameter has a value that it may not have.
    IllegalValue,
    /// A packet has no frame.
    NoFrame,
    /// Reserved bits of the header are set.
    ReservedBits,
    /// An acknowledgement names a packet that was never sent.
    NeverSent,
    /// A client sent a frame that only servers send.
    OfServers,
    /// Bytes came past a limit.
    TooManyBytes,
    /// A stream came past the limit on streams.
    TooManyStreams,
    /// The peer can't send on the stream.
    NotSendable,
    /// The stream can't end there.
    FinalSize,
    /// Too many runs of a stream wait to be read.
    TooManyPieces,
}

impl Reason {
    /// The text: none where nothing is said.
    pub fn as_str(self) -> &'static str
        ensures { result.now ≡ reason_text self }
    {
        match self {
            Reason::Unsaid => "",
            Reason::UnexpectedEnd => "unexpected end",
            Reason::Malformed => "malformed",
            Reason::InvalidFrameId => "invalid frame ID",
            Reason::IllegalValue => "illegal value",
            Reason::NoFrame => "no frame",
            Reason::ReservedBits => "reserved bits set",
            Reason::NeverSent => "a packet that was never sent",
            Reason::OfServers => "a frame that only servers send",
            Reason::TooManyBytes => "past a limit on bytes",
            Reason::TooManyStreams => "past the limit on streams",
            Reason::NotSendable => "no stream to send on",
            Reason::FinalSize => "a final size that can't be",
            Reason::TooManyPieces => "too many pieces wait",
        }
    }
}
