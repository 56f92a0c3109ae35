//! Transport parameters from bytes.
ghost use Rattle.std.specs.Prelude.{◌≡◌, ℕ, ◌≤◌, ◌<◌, ◌^◌, length, IfOk};
ghost use Rattle.quic_wire_core.specs.Taking.{Reads};
ghost use Rattle.quic_parameters.specs.ParametersRead.{number_at, entry_at, whole_at, met_after, met_with, met_in, none_met, parameter_at};
ghost use Rattle.quic_parameters.specs.ParametersCode.{entry_view, Meets};

use crate::transport_parameters::error::TransportParametersError;
use crate::transport_parameters::id::{PLACES, TransportParameterId};
use quic_wire_core::{Codec, VarInt};

/// An entry of a list of parameters.
#[derive(Clone, Copy)]
pub(crate) struct Entry<'a> {
    pub(crate) id: u64,
    pub(crate) value: &'a [u8],
}

fn var_of(bytes: &mut &[u8]) -> Result<VarInt, TransportParametersError>
    ensures { Reads (λ x. x) result bytes.new.now (number_at bytes.old.now) }
{
    VarInt::decode(bytes).map_err(|_| TransportParametersError::Malformed)
}

fn number_of(bytes: &mut &[u8]) -> Result<u64, TransportParametersError>
    ensures { Reads (λ x. x) result bytes.new.now (number_at bytes.old.now) }
{
    Ok(var_of(bytes)?.into_inner())
}

/// Takes the entry at the front.
#[tactic(auto, unfolding(crate::specs::ParametersRead::entry_at))]
fn entry_of<'a>(bytes: &mut &'a [u8]) -> Result<Entry<'a>, TransportParametersError>
    ensures { Reads entry_view result bytes.new.now (entry_at bytes.old.now) }
{
    let id = number_of(bytes)?;
    let len = number_of(bytes)?;
    let all = *bytes;
    if (all.len() as u64) < len {
        return Err(TransportParametersError::Malformed);
    }
    let (value, rest) = all.split_at(len as usize);
    *bytes = rest;
    Ok(Entry { id, value })
}

/// The integer that the bytes are a form of.
#[tactic(auto, unfolding(crate::specs::ParametersRead::whole_at))]
fn whole_of(bytes: &[u8]) -> Result<VarInt, TransportParametersError>
    ensures { result ≡ whole_at bytes.now }
{
    let mut rest = bytes;
    let value = var_of(&mut rest)?;
    if rest.is_empty() {
        Ok(value)
    } else {
        Err(TransportParametersError::Malformed)
    }
}

/// Judges an entry of a parameter after those before it, and keeps its value.
#[tactic(auto, unfolding(crate::specs::ParametersRead::met_after))]
fn meet(
    met: &mut [Option<VarInt>; PLACES],
    parameter: TransportParameterId,
    value: &[u8],
) -> Result<(), TransportParametersError>
    ensures { Meets result met.new (met_after met.old parameter value.now) }
{
    let place = parameter.place();
    if met[place].is_some() {
        return Err(TransportParametersError::Malformed);
    }
    let counted = parameter.counted(whole_of(value)?);
    if parameter.is_out(counted) {
        return Err(TransportParametersError::IllegalValue);
    }
    met[place] = Some(counted);
    Ok(())
}

/// Judges an entry after those before it: one of another id is skipped.
fn meet_entry(
    met: &mut [Option<VarInt>; PLACES],
    id: u64,
    value: &[u8],
) -> Result<(), TransportParametersError>
    ensures { Meets result met.new (met_with met.old (parameter_at id) value.now) }
{
    match TransportParameterId::of_id(id) {
        Some(parameter) => meet(met, parameter, value),
        None => Ok(()),
    }
}

/// The values of the parameters that stand in a list, each at its place.
pub(crate) fn met_of(bytes: &[u8]) -> Result<[Option<VarInt>; PLACES], TransportParametersError>
    ensures { result ≡ met_in none_met bytes.now }
{
    let mut met = [None; PLACES];
    let mut rest = bytes;
    while !rest.is_empty() {
        let entry = entry_of(&mut rest)?;
        meet_entry(&mut met, entry.id, entry.value)?;
    }
    Ok(met)
}
