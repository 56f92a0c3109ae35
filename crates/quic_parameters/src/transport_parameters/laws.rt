//! What the definitions of transport parameters say together. Each function does nothing: its
//! contract is the law.
ghost use Rattle.std.specs.Prelude.{◌≡◌, ℕ, List, Ok};
ghost use Rattle.quic_wire_core.specs.Coding.{IsBytes};
ghost use Rattle.quic_parameters.specs.Parameters.{ParameterValues, AreInRange, ParametersSpell};
ghost use Rattle.quic_parameters.specs.ParametersRead.{parameters_at};
ghost use Rattle.quic_parameters.specs.ParametersWritten.{IsWriteOrder, written_parameters};

/// Bytes that spell values in range are read as these values.
pub fn spelled_is_read()
    ensures { (p : ParameterValues) (bytes : List ℕ) → ParametersSpell p bytes → AreInRange p → parameters_at bytes ≡ Ok p }
{}

/// Bytes that are read spell what is read, which is in range.
pub fn read_is_spelled()
    ensures { (bytes : List ℕ) (p : ParameterValues) → IsBytes bytes → parameters_at bytes ≡ Ok p → ParametersSpell p bytes × AreInRange p }
{}

/// What is written, in any order, spells the values.
pub fn written_is_spelled()
    ensures { (p : ParameterValues) (order : List ℕ) → IsWriteOrder order → AreInRange p → ParametersSpell p (written_parameters p order) }
{}

/// What is written, in any order, is read as the same values.
pub fn written_is_read()
    ensures { (p : ParameterValues) (order : List ℕ) → IsWriteOrder order → AreInRange p → parameters_at (written_parameters p order) ≡ Ok p }
{}
