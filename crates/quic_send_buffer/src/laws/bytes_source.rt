//! What is taken from buffers piece by piece.
ghost use Rattle.std.specs.Prelude.{◌≡◌, ℕ, ◌<◌, ◌≤◌, ◌++◌, List, length};
ghost use Rattle.std.specs.List.{concat};
ghost use Rattle.quic_send_buffer.specs.Source.{next_piece, left_behind};

/// A piece is the beginning of the bytes, at most the limit and at least one byte where there is
/// one and it may be taken; what is left are the bytes behind it.
pub fn pieces_are_prefixes()
    ensures prefix { (buffers : List (List ℕ)) (limit : ℕ) → concat buffers ≡ next_piece buffers limit ++ concat (left_behind buffers limit) }
    ensures most { (buffers : List (List ℕ)) (limit : ℕ) → length (next_piece buffers limit) ≤ limit }
    ensures some { (buffers : List (List ℕ)) (limit : ℕ) → 0 < limit → 0 < length (concat buffers) → 0 < length (next_piece buffers limit) }
{}
