//! What keepers answer, call for call.
use crate::{KeepFault, Keeper, MemKeeper, SureKeeper};
use lr_base::Rows;
use std::alloc::Global;
use std::test::Fail;

// A call of a keeper, with what it should answer.
#[derive(Clone, Copy)]
enum Step {
    Arm,
    Save(&'static [u8]),
    FailedSave(&'static [u8]),
    Load(&'static [u8]),
    LoadNothing,
    FailedLoad,
}

fn mem_keeper(alloc: Global, failing: &[u64]) -> Result<MemKeeper, Fail> {
    Ok(MemKeeper::new(alloc, Rows::from_slice(alloc, failing)?))
}

// Whether the keeper answers this call as it should.
fn answers(keeper: &mut MemKeeper, step: Step) -> bool {
    match step {
        Step::Arm => {
            keeper.arm();
            true
        }
        Step::Save(bytes) => keeper.save(bytes).is_ok(),
        Step::FailedSave(bytes) => keeper.save(bytes) == Err(KeepFault::Failed),
        Step::Load(bytes) => loads(keeper, Some(bytes)),
        Step::LoadNothing => loads(keeper, None),
        Step::FailedLoad => keeper.load().err() == Some(KeepFault::Failed),
    }
}

// Whether a load gives these bytes, or nothing.
fn loads<K: Keeper>(keeper: &mut K, want: Option<&[u8]>) -> bool {
    let Ok(loaded) = keeper.load() else {
        return false;
    };
    loaded.as_ref().map(|bytes| bytes.as_slice()) == want
}

#[test]
fn calls_fail_where_they_are_listed_or_armed(rt: HostRuntime) -> Result<(), Fail> {
    use Step::*;

    // (name, the listed calls, the calls)
    let rows: [(&str, &[u64], &[Step]); 7] = [
        (
            "none_listed",
            &[],
            &[
                LoadNothing,
                Save(b"abc"),
                Load(b"abc"),
                Load(b"abc"),
                Save(b"de"),
                Load(b"de"),
            ],
        ),
        (
            "two_four_and_five_listed",
            &[2, 4, 5],
            &[
                Save(b"abc"),
                FailedSave(b"de"),
                Load(b"abc"),
                FailedLoad,
                FailedSave(b"fg"),
                Load(b"abc"),
                Save(b""),
                Load(b""),
            ],
        ),
        (
            "first_save_listed",
            &[1],
            &[FailedSave(b"abc"), LoadNothing, Save(b"de"), Load(b"de")],
        ),
        (
            "armed_over_a_load",
            &[],
            &[
                Save(b"abc"),
                Arm,
                Load(b"abc"),
                FailedSave(b"de"),
                Load(b"abc"),
                Save(b"fg"),
                Load(b"fg"),
            ],
        ),
        (
            "armed_over_a_failed_load",
            &[1],
            &[
                Arm,
                FailedLoad,
                FailedSave(b"abc"),
                Save(b"de"),
                Load(b"de"),
            ],
        ),
        (
            "armed_twice",
            &[],
            &[Arm, Arm, FailedSave(b"abc"), Save(b"de"), Load(b"de")],
        ),
        (
            "armed_and_listed_at_once",
            &[1],
            &[Arm, FailedSave(b"abc"), Save(b"de"), Load(b"de")],
        ),
    ];
    for (name, failing, steps) in rows {
        let mut keeper = mem_keeper(rt.alloc(), failing)?;
        for (at, step) in steps.iter().enumerate() {
            assert!(rt; answers(&mut keeper, *step), "step {at} of {name}");
        }
    }
    Ok(())
}

#[test]
fn a_copy_is_equal_and_goes_its_own_way(rt: HostRuntime) -> Result<(), Fail> {
    use Step::*;

    let mut keeper = mem_keeper(rt.alloc(), &[3])?;
    assert!(rt; answers(&mut keeper, Save(b"abc")));
    keeper.arm();
    let mut copied = keeper.copy()?;
    // The copy's third call is listed, and the save for which it is armed too.
    for step in [Load(b"abc"), FailedSave(b"de"), Save(b"de"), Load(b"de")] {
        assert!(rt; answers(&mut copied, step));
    }
    // Here the third call is a load, so that the next save still fails.
    for step in [
        Load(b"abc"),
        FailedLoad,
        FailedSave(b"fg"),
        Load(b"abc"),
        Save(b"fg"),
    ] {
        assert!(rt; answers(&mut keeper, step));
    }
    assert!(rt; answers(&mut copied, Load(b"de")));
    assert!(rt; answers(&mut keeper, Load(b"fg")));
    Ok(())
}

#[test]
fn a_sure_keeper_keeps_the_last_bytes(rt: HostRuntime) -> Result<(), Fail> {
    let mut keeper = SureKeeper::new(rt.alloc());
    assert!(rt; loads(&mut keeper, None));
    for bytes in [b"abc".as_slice(), b"", b"de"] {
        assert_eq!(rt; keeper.save(bytes), Ok(()));
        assert!(rt; loads(&mut keeper, Some(bytes)));
        assert!(rt; loads(&mut keeper, Some(bytes)));
    }
    Ok(())
}
