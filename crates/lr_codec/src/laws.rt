//! The law of stable bytes. This function does nothing: its contract is the law.
ghost use Rattle.std.specs.Prelude.{◌≡◌, ◌<◌, true, None};
ghost use Rattle.lr_codec.specs.declared.state.StableState.{StableState as State};
ghost use Rattle.lr_codec.specs.Ranges.{is_in_ranges, is_own};
ghost use Rattle.lr_codec.specs.Spelling.{HasOneSpelling};
ghost use Rattle.lr_codec.specs.States.{state_format};

use lr_base::lr_service::Service;

/// What is written of a state is read as it, and what is read of bytes is written as they are. Each state in the ranges
/// is written, where its operations and its value are the service's own.
pub fn states_have_one_spelling<S: Service>()
    ensures spelling { HasOneSpelling (state_format S.meaning S.encoding S.NUMBER None) }
    ensures ranges { (state : State S S.Op) → S.NUMBER < 256 → is_in_ranges S.meaning S.encoding state ≡ true
        → is_own S.meaning S.encoding state ≡ true
        → (state_format S.meaning S.encoding S.NUMBER None).is_value state ≡ true }
{}
