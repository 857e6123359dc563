//! Stops within runs: what the store opened again says is what it said after the moves that were answered, or after one more.
use crate::courses::{
    BARE, BEHIND, Course, MADE, NONE, PEOPLE, STAGED, State, USERS, WIDE, Way, allows, left_by,
    run_first, said, state_after, states_of,
};
use ov_host::Area;
use ov_memhost::MemHost;
use std::alloc::{AllocError, Global};
use std::test::Fail;

const STOPS: [Way; 6] = [
    (0, 0x00),
    (u64::MAX, 0x00),
    (0, 0xA5),
    (u64::MAX, 0xA5),
    (0, 0x5A),
    (u64::MAX, 0x5A),
];

// Whether what is left by a stop within the call of this number has other bytes than within the call before, or others printed.
fn is_new(left: &MemHost, host: &MemHost, call: u64, way: Way) -> Result<bool, AllocError> {
    let before = left_by(host, call.saturating_sub(1), way)?;
    Ok(
        call == 0
            || before.bytes(Area::Journal) != left.bytes(Area::Journal)
            || before.bytes(Area::Pages) != left.bytes(Area::Pages)
            || before.printed() != left.printed(),
    )
}

// Whether stops of one way within each call of a host leave what is allowed.
fn stops_leave(
    alloc: Global,
    course: &Course,
    states: &[State],
    host: &MemHost,
    way: Way,
) -> Result<bool, AllocError> {
    for call in 0..=host.calls() {
        let mut left = left_by(host, call, way)?;
        if is_new(&left, host, call, way)? && !allows(alloc, course, states, &mut left)? {
            return Ok(false);
        }
    }
    Ok(true)
}

// Whether all stops do.
fn all_leave(
    alloc: Global,
    course: &Course,
    states: &[State],
    host: &MemHost,
) -> Result<bool, AllocError> {
    for way in STOPS {
        if !stops_leave(alloc, course, states, host, way)? {
            return Ok(false);
        }
    }
    Ok(true)
}

// Whether a stop within any call of a course leaves what is allowed.
fn holds(alloc: Global, course: &Course) -> Result<bool, AllocError> {
    let states = states_of(alloc, course)?;
    let host = run_first(alloc, course, usize::MAX, NONE)?.host;
    all_leave(alloc, course, states.as_slice(), &host)
}

#[test]
fn a_stop_leaves_what_was_answered(rt: HostRuntime) -> Result<(), Fail> {
    assert!(rt; holds(rt.alloc(), &PEOPLE)?);
    Ok(())
}

#[test]
fn a_stop_in_a_made_dataset_leaves_its_first_moves(rt: HostRuntime) -> Result<(), Fail> {
    assert!(rt; holds(rt.alloc(), &MADE)?);
    Ok(())
}

#[test]
fn a_stop_where_columns_are_added_leaves_all_of_them_or_none(rt: HostRuntime) -> Result<(), Fail> {
    assert!(rt; holds(rt.alloc(), &WIDE)?);
    Ok(())
}

#[test]
fn a_stop_between_users_leaves_them_before_or_after(rt: HostRuntime) -> Result<(), Fail> {
    assert!(rt; holds(rt.alloc(), &USERS)?);
    Ok(())
}

#[test]
fn a_stop_leaves_a_staged_table_or_none(rt: HostRuntime) -> Result<(), Fail> {
    assert!(rt; holds(rt.alloc(), &STAGED)?);
    Ok(())
}

#[test]
fn a_stop_behind_a_reply_leaves_the_step_or_not(rt: HostRuntime) -> Result<(), Fail> {
    assert!(rt; holds(rt.alloc(), &BEHIND)?);
    Ok(())
}

// Whether stops within a second checkpoint leave the versions, where the first one was stopped in this way.
fn second_leaves(
    alloc: Global,
    states: &[State],
    host: &MemHost,
    way: Way,
) -> Result<bool, AllocError> {
    for call in 0..=host.calls() {
        let mut left = left_by(host, call, way)?;
        if is_new(&left, host, call, way)? {
            said(alloc, &mut left, "checkpoint\n")?;
            if !all_leave(alloc, &BARE, states, &left)? {
                return Ok(false);
            }
        }
    }
    Ok(true)
}

#[test]
fn a_checkpoint_may_be_stopped_after_a_stopped_one(rt: HostRuntime) -> Result<(), Fail> {
    let alloc = rt.alloc();
    let mut states = Vec::new(alloc);
    states.push(state_after(alloc, &BARE, 2, "", 2)?)?;
    let base = run_first(alloc, &BARE, 2, NONE)?.host;
    let mut host = left_by(&base, u64::MAX, (0, 0))?;
    said(alloc, &mut host, "checkpoint\n")?;
    for way in STOPS {
        assert!(rt; second_leaves(alloc, states.as_slice(), &host, way)?);
    }
    Ok(())
}
