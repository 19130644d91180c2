//! Stable states and their bytes.
ghost use Rattle.std.specs.Prelude.{◌≡◌, ◌<◌, true, IfOk, Some, None};
ghost use Rattle.lr_base.specs.Formats.{decoded_in};
ghost use Rattle.lr_codec.specs.Faults.{ReadsWhole};
ghost use Rattle.lr_codec.specs.Ranges.{is_in_ranges};
ghost use Rattle.lr_codec.specs.States.{state_format};

use crate::heads::Whose;
use crate::state::StableState;
use crate::states::state_field;
use crate::writing_states::put_state;
use lr_base::lr_service::Service;
use lr_base::{BadWhat, GetFault, NoMemory, Rows, decoded};
use std::alloc::Global;
use thiserror::Error;

/// Why bytes weren't read as a state.
#[derive(Clone, Copy, Debug, PartialEq, Eq, Error)]
pub enum CodecFault {
    /// The offset of the first wrong field, from 0, or of the first element that is out of order.
    #[error("{what:?} at {at}")]
    Bad { at: u64, what: BadWhat },
    #[error("no memory")]
    NoMemory,
}

/// The state that is spelled so, which is in the ranges. Other bytes are refused at the first wrong field.
pub fn decode<S: Service>(alloc: Global, bytes: &[u8]) -> Result<StableState<S>, CodecFault>
    ensures read { ReadsWhole (decoded_in (state_format S.meaning S.encoding S.NUMBER None) bytes.now) result }
    ensures ranges { IfOk result (λ state. is_in_ranges S.meaning S.encoding state ≡ true) }
{
    decode_of(alloc, None, bytes)
}

// The service's number, which a byte has room for.
fn service_number<S: Service>() -> u8
    ensures number { result ≡ S.NUMBER }
    ensures below { S.NUMBER < 256 }
{
    S::NUMBER
}

/// The one spelling of a state in the ranges.
pub fn encode<S: Service>(alloc: Global, state: &StableState<S>) -> Result<Rows<u8>, NoMemory>
    requires { is_in_ranges S.meaning S.encoding state.now ≡ true }
    ensures spelling { IfOk result (λ bytes. bytes
        ≡ (state_format S.meaning S.encoding S.NUMBER None).written state.now) }
    ensures real { IfOk result (λ bytes. (state_format S.meaning S.encoding S.NUMBER None).is_value state.now ≡ true) }
{
    let _below = service_number::<S>();
    let mut out = Rows::new(alloc);
    put_state(state, &mut out)?;
    Ok(out)
}

/// The state of one replica of so many that is spelled so. The bytes of another are refused at the count or at the
/// replica's number, whatever is wrong behind it.
pub fn decode_own<S: Service>(
    alloc: Global,
    replicas: u8,
    me: u8,
    bytes: &[u8],
) -> Result<StableState<S>, CodecFault>
    ensures read { ReadsWhole
        (decoded_in (state_format S.meaning S.encoding S.NUMBER (Some (replicas, me))) bytes.now) result }
    ensures ranges { IfOk result (λ state. is_in_ranges S.meaning S.encoding state ≡ true) }
{
    decode_of(alloc, Some((replicas, me)), bytes)
}

// The state that is spelled so, where it is wanted.
fn decode_of<S: Service>(
    alloc: Global,
    whose: Whose,
    bytes: &[u8],
) -> Result<StableState<S>, CodecFault>
    ensures read { ReadsWhole (decoded_in (state_format S.meaning S.encoding S.NUMBER whose) bytes.now) result }
    ensures ranges { IfOk result (λ state. is_in_ranges S.meaning S.encoding state ≡ true) }
{
    match decoded(bytes, state_field::<S>(alloc, whose, bytes)) {
        Ok(state) => Ok(state),
        Err(GetFault::Bad { at, what }) => Err(CodecFault::Bad { at, what }),
        Err(GetFault::NoMemory) => Err(CodecFault::NoMemory),
    }
}
