//! Parts of a stream in an ordered map, by the offset behind a part's last byte: so the part that
//! has an offset is found by one look-up.
ghost use Rattle.std.specs.Prelude.{◌≡◌, ◌<◌, ◌^◌, OnOk, OnErr};
ghost use Rattle.std.specs.Option.{option_map};
ghost use Rattle.std.specs.BTreeMap.{insert_entry};
ghost use Rattle.std.specs.Ordering.{nat_cmp};
ghost use Rattle.quic_sets.specs.Parts.{after};

use bytes::Bytes;
use std::alloc::AllocError;
use std::collections::BTreeMap;

/// The first part that ends behind an offset.
pub fn next_part(parts: &BTreeMap<u64, Bytes>, at: u64) -> Option<(u64, &Bytes)>
    requires { at < 2 ^ 62 }
    ensures { option_map (λ p. (p.0, p.1.now)) result ≡ after at parts.now.entries }
{
    let first = at + 1;
    match parts.range(first..).next() {
        Some((end, bytes)) => Some((*end, bytes)),
        None => None,
    }
}

/// Keeps a part that ends at `end`.
///
/// # Errors
///
/// - [`AllocError`]: an allocation fails. Nothing changes.
pub fn keep(parts: &mut BTreeMap<u64, Bytes>, end: u64, part: Bytes) -> Result<(), AllocError>
    ensures ok { OnOk result (parts.new.entries ≡ insert_entry nat_cmp parts.old.entries end part) }
    ensures err { OnErr result (parts.new.entries ≡ parts.old.entries) }
{
    let _ = parts.insert(end, part)?;
    Ok(())
}
