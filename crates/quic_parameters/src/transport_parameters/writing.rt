//! Transport parameters to bytes.
ghost use Rattle.std.specs.Prelude.{◌≡◌, ◌++◌, length, OnOk};
ghost use Rattle.quic_wire_core.specs.Varint.{shortest};
ghost use Rattle.quic_parameters.specs.ParametersWritten.{shortest_entry, written_value};

use crate::transport_parameters::id::TransportParameterId;
use quic_wire_core::{Codec, VarInt};
use std::alloc::AllocError;

/// The bytes of an integer's shortest form.
fn size_of(value: VarInt) -> VarInt
    ensures { result ≡ length (shortest value) }
{
    VarInt::from_u64_unchecked(value.size() as u64)
}

/// Writes an entry, each integer in its shortest form.
#[tactic(auto, using(std::proofs::Common::append_assoc))]
fn put_entry(buf: &mut Vec<u8>, id: VarInt, value: VarInt) -> Result<(), AllocError>
    ensures { OnOk result (buf.new.items ≡ buf.old.items ++ shortest_entry id (shortest value)) }
{
    id.encode(buf)?;
    size_of(value).encode(buf)?;
    value.encode(buf)
}

/// Writes a parameter where it has a value, which isn't the default.
pub(crate) fn put_parameter(
    buf: &mut Vec<u8>,
    parameter: TransportParameterId,
    value: Option<VarInt>,
) -> Result<(), AllocError>
    ensures { OnOk result (buf.new.items ≡ buf.old.items ++ written_value parameter value) }
{
    match value {
        Some(value) if !parameter.is_default(value) => put_entry(buf, parameter.id(), value),
        _ => Ok(()),
    }
}
