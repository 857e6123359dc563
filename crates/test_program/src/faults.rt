//! Calls of the ends that fail: the run ends, and what it leaves is as after a stop.
use crate::courses::{
    BEHIND, Course, Fails, MADE, PEOPLE, STAGED, State, USERS, WIDE, Way, allows, left_by,
    run_first, states_of,
};
use crate::ends::{NEVER, host_of, run_on};
use ov_top::Status;
use std::alloc::{AllocError, Global};
use std::test::Fail;

// What a failed write may leave is what a stop behind it does.
const BEHIND_IT: Way = (NEVER, 0x5A);

// The host's, the source's or the stage's call of this number, and how a run that meets it ends.
fn failing(end: usize, call: u64) -> (Fails, Status) {
    match end {
        0 => ([call, NEVER, NEVER], Status::HostFault),
        1 => ([NEVER, call, NEVER], Status::InputFault),
        _ => ([NEVER, NEVER, call], Status::InputFault),
    }
}

// How many calls of an end were made to fail, one a run, until none was met; none has this number where one leaves what isn't allowed.
fn faults_of(
    alloc: Global,
    course: &Course,
    states: &[State],
    end: usize,
) -> Result<u64, AllocError> {
    for call in 0..1000u64 {
        let (fails, status) = failing(end, call);
        let ran = run_first(alloc, course, usize::MAX, fails)?;
        if ran.status != status {
            return Ok(call);
        }
        let mut left = left_by(&ran.host, NEVER, BEHIND_IT)?;
        if !allows(alloc, course, states, &mut left)? {
            return Ok(NEVER);
        }
    }
    Ok(NEVER)
}

// Whether each call of each end was made to fail.
fn holds(alloc: Global, course: &Course) -> Result<bool, AllocError> {
    let states = states_of(alloc, course)?;
    for (end, count) in course.calls.iter().enumerate() {
        if faults_of(alloc, course, states.as_slice(), end)? != *count {
            return Ok(false);
        }
    }
    Ok(true)
}

#[test]
fn a_fault_of_an_end_ends_the_run(rt: HostRuntime) -> Result<(), Fail> {
    assert!(rt; holds(rt.alloc(), &PEOPLE)?);
    Ok(())
}

#[test]
fn a_fault_in_a_made_dataset_ends_the_run(rt: HostRuntime) -> Result<(), Fail> {
    assert!(rt; holds(rt.alloc(), &MADE)?);
    Ok(())
}

#[test]
fn a_fault_where_columns_are_added_ends_the_run(rt: HostRuntime) -> Result<(), Fail> {
    assert!(rt; holds(rt.alloc(), &WIDE)?);
    Ok(())
}

#[test]
fn a_fault_between_users_ends_the_run(rt: HostRuntime) -> Result<(), Fail> {
    assert!(rt; holds(rt.alloc(), &USERS)?);
    Ok(())
}

#[test]
fn a_fault_of_an_end_leaves_a_staged_table_or_none(rt: HostRuntime) -> Result<(), Fail> {
    assert!(rt; holds(rt.alloc(), &STAGED)?);
    Ok(())
}

#[test]
fn a_fault_behind_a_reply_ends_the_run(rt: HostRuntime) -> Result<(), Fail> {
    assert!(rt; holds(rt.alloc(), &BEHIND)?);
    Ok(())
}

// The script is given by one call of its source, and its end by the next one. Scripts, the call that fails, what is printed, and how
// the run ends.
const SOURCES: [(&str, u64, &str, Status); 4] = [
    ("ls\nls", 0, "", Status::InputFault),
    ("ls\nls", 1, "(0 datasets)\n", Status::InputFault),
    ("ls\nls", 2, "(0 datasets)\n(0 datasets)\n", Status::Done),
    (
        "ls\nls\n",
        1,
        "(0 datasets)\n(0 datasets)\n",
        Status::InputFault,
    ),
];

#[test]
fn lines_before_a_fault_of_the_source_are_served(rt: HostRuntime) -> Result<(), Fail> {
    let alloc = rt.alloc();
    for (script, call, printed, status) in SOURCES {
        let mut host = host_of(alloc, NEVER)?;
        let ended = run_on(alloc, &mut host, false, script.as_bytes(), call, NEVER)?;
        assert!(rt; ended == status);
        assert!(rt; host.printed() == printed.as_bytes());
    }
    Ok(())
}
