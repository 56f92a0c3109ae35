//! What the definitions of this crate say together. Each function does nothing: its contract is the
//! law.
ghost use Rattle.std.specs.Prelude.{◌≡◌, ℕ, ◌+◌, ◌<◌, ◌≤◌, ◌^◌, ◌-◌, ◌*◌, ◌/◌, List, Bool, ◌||◌, [], None, Some, true, false, cond, ltb, max, length, count_by, sum_by, All, IfSome, IsSome, is_some, Option};
ghost use Rattle.std.specs.List.{slice_get};
ghost use Rattle.std.specs.Option.{option_or};
ghost use Rattle.quic_assembler.specs.Arrived.{Arrived, IsLawful, runs_of, waits, waiting_bytes, is_crowded, joined, begins_run, count_to, byte_at, holds, is_given, after_insert, given_in, given_by, after_read, after_ordering, in_chunk, length_of, bytes_read_of};
ghost use Rattle.quic_sets.specs.Parts.{Part, byte_from, bytes_of};
ghost use Rattle.quic_assembler.specs.Waiting.{IsInserted, IsChunk, IsRead, IsLeft};
ghost use Rattle.quic_assembler.specs.declared.assembler.Chunk.{Chunk};
ghost use Rattle.quic_assembler.specs.declared.assembler.TheConstants.{MOST_PIECES};
ghost use Rattle.quic_assembler.specs.declared.assembler.parts.TheConstants.{MOST_PARTS, SHORT_PART};
ghost use Rattle.quic_assembler.specs.ArrivedHistory.{Call, AreInRange, arrived_after, given_over, was_given, byte_in, first_came, Came};

/// What waits was not given, and each offset waits in one part at most.
pub fn offsets_wait_once()
    ensures given { (a : Arrived) (o : ℕ) → IsLawful a → is_given a o ≡ true → byte_at a.parts o ≡ None }
    ensures above { (a : Arrived) (o : ℕ) → IsLawful a → IsSome (byte_at a.parts o) → a.read ≤ o }
    ensures once { (a : Arrived) (o : ℕ) → IsLawful a → count_by (holds o) a.parts ≤ 1 }
{}

/// The runs are as many as the offsets at which a byte waits and none right before it.
pub fn runs_are_maximal()
    ensures { (a : Arrived) (n : ℕ) → IsLawful a → 2 ^ 62 ≤ n → runs_of a.parts ≡ count_to (begins_run a.parts) n }
{}

/// The bytes that wait are as many as the offsets at which one does.
pub fn waiting_bytes_are_counted()
    ensures { (a : Arrived) (n : ℕ) → IsLawful a → 2 ^ 62 ≤ n → waiting_bytes a.parts ≡ count_to (waits a.parts) n }
{}

/// After bytes came, an offset that was not given waits with the byte that waited there, or else
/// with the byte that came. One that was given waits never again.
pub fn first_bytes_stand()
    ensures bytes { (a : Arrived) (offset : ℕ) (bytes : List ℕ) (o : ℕ) → IsLawful a → offset + length bytes < 2 ^ 62 → byte_at (after_insert a offset bytes).parts o ≡ cond (is_given a o) None (option_or (byte_at a.parts o) (byte_from offset bytes o)) }
    ensures given { (a : Arrived) (offset : ℕ) (bytes : List ℕ) (o : ℕ) → is_given (after_insert a offset bytes) o ≡ is_given a o }
    ensures lawful { (a : Arrived) (offset : ℕ) (bytes : List ℕ) → IsLawful a → offset + length bytes < 2 ^ 62 → IsLawful (after_insert a offset bytes) }
{}

/// What is said of the offsets after bytes came determines what is after it: which wait, with which
/// bytes, and where a part of them begins.
pub fn insertion_is_one()
    ensures { (a b c : Arrived) (at : ℕ) (bytes : List ℕ) → IsInserted a at bytes b → IsInserted a at bytes c → b ≡ c }
{}

/// No more than 2048 parts are kept, or two for each run, or one for each 64 bytes that wait. Up to
/// 2048 are never joined.
pub fn few_parts_are_kept()
    ensures most { (a : Arrived) (offset : ℕ) (bytes : List ℕ) (ps : List Part) → IsLawful a → offset + length bytes < 2 ^ 62 → ps ≡ (after_insert a offset bytes).parts → length ps ≤ max (max 2048 (2 * runs_of ps)) (waiting_bytes ps / 64) }
    ensures apart { (ps : List Part) → length ps ≤ 2048 → is_crowded ps ≡ false }
{}

/// Where parts are joined, all of them together have no more than 128 bytes for each part that
/// goes.
pub fn joins_copy_little()
    ensures { (a : Arrived) → IsLawful a → is_crowded a.parts ≡ true → length (bytes_of a.parts) ≤ 128 * (length a.parts - length (joined a.parts)) }
{}

/// 2048 runs of a stream may wait however small its window is; parts that touch are joined above
/// 2048 parts, where they have 64 bytes each at most. All are our choice, as RFC 9000, 21.7 names
/// no number.
pub fn constants_are_these()
    ensures runs { MOST_PIECES ≡ 2048 }
    ensures parts { MOST_PARTS ≡ 2048 }
    ensures short { SHORT_PART ≡ 64 }
{}

/// A read gives bytes that waited, from one offset on: an ordered one from where the stream is read
/// next, an unordered one from the least offset that waits. There is at least one where one waits
/// there and was asked for, and there are no more than were asked for.
pub fn reads_give_what_waits()
    ensures ordered { (a : Arrived) (max : ℕ) → IsLawful a → is_some (given_in false a max) ≡ is_some (byte_at a.parts a.read) }
    ensures place { (a : Arrived) (max : ℕ) → IfSome (given_in false a max) (λ chunk. chunk.offset ≡ a.read) }
    ensures unordered { (a : Arrived) (max : ℕ) → given_in true a max ≡ None → a.parts ≡ [] }
    ensures least { (a : Arrived) (max o : ℕ) → IsLawful a → IfSome (given_in true a max) (λ chunk. o < chunk.offset → byte_at a.parts o ≡ None) }
    ensures bytes { (a : Arrived) (max i : ℕ) → IsLawful a → IfSome (given_by a max) (λ chunk. i < length chunk.bytes → slice_get chunk.bytes i ≡ byte_at a.parts (chunk.offset + i)) }
    ensures most { (a : Arrived) (max : ℕ) → IfSome (given_by a max) (λ chunk. length chunk.bytes ≤ max) }
    ensures some { (a : Arrived) (max : ℕ) → IsLawful a → 0 < max → IfSome (given_by a max) (λ chunk. 0 < length chunk.bytes) }
{}

/// A read takes the offsets of its chunk from what waits, and counts them as given: so each is
/// given once, as none that was given waits.
pub fn each_offset_is_given_once()
    ensures given { (a : Arrived) (max o : ℕ) → IsLawful a → is_given (after_read a max) o ≡ (in_chunk (given_by a max) o || is_given a o) }
    ensures leaves { (a : Arrived) (max o : ℕ) → IsLawful a → byte_at (after_read a max).parts o ≡ cond (in_chunk (given_by a max) o) None (byte_at a.parts o) }
    ensures counted { (a : Arrived) (max : ℕ) → IsLawful a → bytes_read_of (after_read a max) ≡ bytes_read_of a + length_of (given_by a max) }
    ensures lawful { (a : Arrived) (max : ℕ) → IsLawful a → IsLawful (after_read a max) }
{}

/// What is said of the offsets at a read determines it: the chunk from an offset on, whether there
/// is one and from where, and what is after it.
pub fn reads_are_one()
    ensures chunk { (a : Arrived) (at max : ℕ) (c d : Chunk) → IsChunk a at max c → IsChunk a at max d → c ≡ d }
    ensures given { (a : Arrived) (max : ℕ) (c d : Option Chunk) → IsRead a max c → IsRead a max d → c ≡ d }
    ensures left { (a b c : Arrived) (chunk : Option Chunk) → IsLeft a chunk b → IsLeft a chunk c → b ≡ c }
{}

/// While no read was unordered, the offsets that were given are those below where the stream is
/// read next.
pub fn ordered_reads_give_a_beginning()
    ensures given { (a : Arrived) (o : ℕ) → IsLawful a → a.unordered ≡ false → is_given a o ≡ ltb o a.read }
    ensures counted { (a : Arrived) → IsLawful a → a.unordered ≡ false → bytes_read_of a ≡ a.read }
{}

/// Once a read was unordered, each one behind it is.
pub fn unordered_reads_stay_so()
    ensures begun { (a : Arrived) (ordered : Bool) → a.unordered ≡ true → (after_ordering a ordered).unordered ≡ true }
    ensures read { (a : Arrived) (max : ℕ) → (after_read a max).unordered ≡ a.unordered }
    ensures lawful { (a : Arrived) (ordered : Bool) → IsLawful a → IsLawful (after_ordering a ordered) }
{}

/// After any calls the byte that waits at an offset is the first that came for it since what waited
/// was dropped, unless it was given.
pub fn first_bytes_wait_until_given()
    ensures lawful { (calls : List Call) → AreInRange calls → IsLawful (arrived_after calls) }
    ensures waits { (calls : List Call) (o : ℕ) → AreInRange calls → byte_at (arrived_after calls).parts o ≡ cond (was_given (given_over calls) o) None (first_came calls o) }
    ensures given { (calls : List Call) (o : ℕ) → AreInRange calls → is_given (arrived_after calls) o ≡ was_given (given_over calls) o }
{}

/// A read after any calls gives bytes that came at their offsets: of each offset the first that
/// came since what waited was dropped.
pub fn given_bytes_came()
    ensures first { (calls : List Call) (max o byte : ℕ) → AreInRange calls → byte_in (given_by (arrived_after calls) max) o ≡ Some byte → first_came calls o ≡ Some byte }
    ensures came { (calls : List Call) (max o byte : ℕ) → AreInRange calls → byte_in (given_by (arrived_after calls) max) o ≡ Some byte → Came calls o byte }
    ensures all { (calls : List Call) → AreInRange calls → All (λ chunk. (o byte : ℕ) → byte_in (Some chunk) o ≡ Some byte → Came calls o byte) (given_over calls) }
{}

/// Whatever the calls, no offset is given twice, and the bytes that were read are those of the
/// chunks.
pub fn no_offset_is_given_twice()
    ensures once { (calls : List Call) (o : ℕ) → AreInRange calls → count_by (λ chunk. in_chunk (Some chunk) o) (given_over calls) ≤ 1 }
    ensures counted { (calls : List Call) → AreInRange calls → bytes_read_of (arrived_after calls) ≡ sum_by (λ chunk. length chunk.bytes) (given_over calls) }
{}
