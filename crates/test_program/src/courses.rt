//! Scripts by their lines, and what may be said of the store that a stop within them leaves.
use crate::ends::{NEVER, host_of, run_on};
use ov_memhost::MemHost;
use ov_top::Status;
use std::alloc::{AllocError, Global};

/// A line that has a reply, and lines that leave what a stop between its moves leaves; none where it makes one move at most.
pub type Move = (&'static str, &'static [&'static str]);

/// A script by its lines, whether a step comes behind each reply, what is asked of the store that is left, and how many calls there
/// are of the host, of the source and of the stage.
pub struct Course {
    pub steps: bool,
    pub lines: &'static [Move],
    pub probe: &'static str,
    pub calls: [u64; 3],
}

pub const PEOPLE: Course = Course {
    steps: false,
    lines: &[
        (
            "init people -s id:int,name:text,score:int -k id -f a.csv\n",
            &[],
        ),
        ("commit people -v 1 -f b.csv -m raise\n", &[]),
        ("checkout people -v 1,2\n", &[]),
        (
            "run SELECT vid, COUNT(*), SUM(score) FROM CVD people GROUP BY vid\n",
            &[],
        ),
        (
            "run SELECT LEFT.name, RIGHT.score FROM VERSION 1 OF CVD people JOIN VERSION 2 OF CVD people ON LEFT.id = RIGHT.id\n",
            &[],
        ),
        ("commit people -v 7 -f b.csv -m none\n", &[]),
        ("commit people -v 1,2 -f m.csv -m both\n", &[]),
        ("optimize people -d 1/1\n", &[]),
        ("checkpoint\n", &[]),
        ("checkpoint\n", &[]),
        ("checkpoint\n", &[]),
        ("migrate 1\n", &[]),
        (
            "init other -s id:int,name:text,score:int -k id -f b.csv\n",
            &[],
        ),
        ("drop people\n", &[]),
        ("checkout other -v 1 -f out.csv\n", &[]),
    ],
    probe: "ls\nlog people\nlog other\nlayout people\ncheckout people -v 1\ncheckout people -v 2,1\ncheckout people -v 3\ncheckout other -v 1\n",
    calls: [132, 2, 15],
};

/// Each version of a made dataset is a move of its own. At 2/3 there are two targets, of which the second one keeps a segment: a
/// copy and a flip for each. The second plan goes with its dataset. What is left of a plan is taken once a stop was looked at.
pub const MADE: Course = Course {
    steps: false,
    lines: &[
        (
            "generate g 7 3 3\n",
            &["generate g 7 3 1\n", "generate g 7 3 2\n"],
        ),
        ("advise g -s 99 -m 3/2\n", &[]),
        ("optimize g -d 2/3\n", &[]),
        ("migrate 1\n", &[]),
        ("migrate 2\n", &["migrate 1\n"]),
        ("migrate 1\n", &[]),
        ("optimize g -s 99\n", &[]),
        ("migrate 1\n", &[]),
        ("drop g\n", &[]),
        ("migrate 1\n", &[]),
    ],
    probe: "ls\nlog g\nlayout g\ncheckout g -v 1\ncheckout g -v 2\ncheckout g -v 3\nmigrate 9\nlayout g\ncheckout g -v 3,2\n",
    calls: [138, 2, 0],
};

/// A step comes behind each reply, a refusal too, until the plan has ended.
pub const BEHIND: Course = Course {
    steps: true,
    lines: &[
        (
            "init people -s id:int,name:text,score:int -k id -f a.csv\n",
            &[],
        ),
        ("commit people -v 1 -f b.csv -m raise\n", &[]),
        ("optimize people -d 1/1\n", &[]),
        ("checkpoint\n", &[]),
        ("checkout people -v 9\n", &[]),
        ("commit people -v 2 -f a.csv -m back\n", &[]),
        ("optimize people -d 1/1\n", &[]),
        ("migrate 1\n", &[]),
        ("drop people\n", &[]),
    ],
    probe: "ls\nlog people\nlayout people\ncheckout people -v 1\ncheckout people -v 3,2\nmigrate 9\nlayout people\ncheckout people -v 3,2\n",
    calls: [138, 2, 9],
};

/// Columns are added while a plan runs, on one branch and then on another, where the same one is refused. What was copied for the
/// plan stays, and its targets go on.
pub const WIDE: Course = Course {
    steps: false,
    lines: &[
        (
            "init people -s id:int,name:text,score:int -k id -f a.csv\n",
            &[],
        ),
        ("commit people -v 1 -f b.csv -m raise\n", &[]),
        ("optimize people -d 1/1\n", &[]),
        ("migrate 1\n", &[]),
        ("commit people -v 2 -f w.csv -m wide -a team:text\n", &[]),
        ("commit people -v 1 -f w.csv -m again -a team:text\n", &[]),
        ("commit people -v 1 -f w.csv -m branch\n", &[]),
        ("commit people -v 4,1 -f x.csv -m wider -a ok:flag\n", &[]),
        ("migrate 1\n", &[]),
        ("checkpoint\n", &[]),
        ("checkout people -v 1,3 -f out.csv\n", &[]),
    ],
    probe: "ls\nlog people\nlayout people\ncheckout people -v 1\ncheckout people -v 3,2\ncheckout people -v 5\nmigrate 9\nlayout people\ncheckout people -v 3,1\n",
    calls: [123, 2, 18],
};

/// Users, each a version more of a dataset of the store's own, where no table is staged.
pub const USERS: Course = Course {
    steps: false,
    lines: &[
        ("whoami\n", &[]),
        ("tables\n", &[]),
        ("create_user ann\n", &[]),
        ("create_user ann\n", &[]),
        ("create_user bob\n", &[]),
        ("unstage admin.work\n", &[]),
        ("checkpoint\n", &[]),
        ("create_user cy\n", &[]),
    ],
    probe: "ls\nlog orpheus_users\ncheckout orpheus_users -v 1\ncheckout orpheus_users -v 2\ncheckout orpheus_users -v 3\n",
    calls: [70, 2, 0],
};

/// A staged table. That it is staged and taken off is a version more of a dataset of the store's own each time; its file, which is
/// written behind it, isn't there for a later run.
pub const STAGED: Course = Course {
    steps: false,
    lines: &[
        (
            "init people -s id:int,name:text,score:int -k id -f a.csv\n",
            &[],
        ),
        ("checkout people -v 1 -t work\n", &[]),
        ("checkout people -v 1 -t work\n", &[]),
        ("commit -t admin.work -m same\n", &[]),
        ("tables\n", &[]),
        ("unstage admin.work\n", &[]),
        ("commit -t admin.work -m none\n", &[]),
        ("checkout people -v 2,1 -t work\n", &[]),
    ],
    probe: "ls\ntables\nlog people\nlog orpheus_stage\ncheckout orpheus_stage -v 1\ncheckout orpheus_stage -v 2\ncheckout orpheus_stage -v 3\n",
    calls: [86, 2, 12],
};

/// Versions without a row, which take no page.
pub const BARE: Course = Course {
    steps: false,
    lines: &[
        (
            "init none -s id:int,name:text,score:int -k id -f h.csv\n",
            &[],
        ),
        ("commit none -v 1 -f h.csv -m again\n", &[]),
    ],
    probe: "ls\nlog none\n",
    calls: [0, 0, 0],
};

/// Which calls fail: one of the host, one of the source and one of the stage.
pub type Fails = [u64; 3];

pub const NONE: Fails = [NEVER, NEVER, NEVER];

/// A host, and how a run over it ended.
#[derive(Drop)]
pub struct Ran {
    pub host: MemHost,
    pub status: Status,
}

// The script of a course's first so many lines.
fn script_of(alloc: Global, course: &Course, count: usize) -> Result<Vec<u8>, AllocError> {
    let mut script = Vec::new(alloc);
    for (line, _) in &course.lines[..count.min(course.lines.len())] {
        script.extend_from_slice(line.as_bytes())?;
    }
    Ok(script)
}

/// Runs a course's first so many lines on empty areas.
pub fn run_first(
    alloc: Global,
    course: &Course,
    count: usize,
    fails: Fails,
) -> Result<Ran, AllocError> {
    let [host, source, stage] = fails;
    let script = script_of(alloc, course, count)?;
    let mut host = host_of(alloc, host)?;
    let status = run_on(alloc, &mut host, course.steps, &script, source, stage)?;
    Ok(Ran { host, status })
}

/// Runs a script of which no call fails, with no steps behind its replies, and gives what it prints.
pub fn said(alloc: Global, host: &mut MemHost, script: &str) -> Result<Vec<u8>, AllocError> {
    let before = host.printed().len();
    run_on(alloc, host, false, script.as_bytes(), NEVER, NEVER)?;
    let printed = host.printed();
    Vec::from_slice(alloc, &printed[before.min(printed.len())..])
}

/// The lengths of both areas, which are brought into their ranges, and the bytes in doubt.
pub type Way = (u64, u8);

/// What a stop within the call of this number leaves; the last call's where there are fewer.
pub fn left_by(host: &MemHost, call: u64, way: Way) -> Result<MemHost, AllocError> {
    let (length, pick) = way;
    host.crash_at(call.min(host.calls()), length, length, &[pick])
}

/// What a store may say where as many replies were printed as from `least` to `most`. Where `printed` bytes are printed, there are
/// `most` replies at least.
#[derive(Drop)]
pub struct State {
    least: usize,
    most: usize,
    printed: usize,
    says: Vec<u8>,
}

/// The state after a course's first so many lines, and a line more with no step behind it. Where no step comes behind a reply it is a
/// line of the same run, which has the files that lines before it wrote.
pub fn state_after(
    alloc: Global,
    course: &Course,
    count: usize,
    more: &str,
    most: usize,
) -> Result<State, AllocError> {
    let mut script = script_of(alloc, course, count)?;
    let mut host = host_of(alloc, NEVER)?;
    if course.steps {
        run_on(alloc, &mut host, true, &script, NEVER, NEVER)?;
        script.clear();
    }
    script.extend_from_slice(more.as_bytes())?;
    run_on(alloc, &mut host, false, &script, NEVER, NEVER)?;
    let printed = host.printed().len();
    let says = said(alloc, &mut host, course.probe)?;
    Ok(State {
        least: count,
        most,
        printed,
        says,
    })
}

// What the line behind `count` others leaves: what stops between its moves do, the line, and the step behind its reply.
fn push_states(
    alloc: Global,
    course: &Course,
    count: usize,
    states: &mut Vec<State>,
) -> Result<(), AllocError> {
    let next = count.saturating_add(1);
    if let Some((line, parts)) = course.lines.get(count) {
        for part in *parts {
            states.push(state_after(alloc, course, count, part, count)?)?;
        }
        states.push(state_after(alloc, course, count, line, next)?)?;
    }
    if course.steps {
        states.push(state_after(alloc, course, next, "", next)?)?;
    }
    Ok(())
}

/// All states that a course goes through, move by move.
pub fn states_of(alloc: Global, course: &Course) -> Result<Vec<State>, AllocError> {
    let mut states = Vec::new(alloc);
    states.push(state_after(alloc, course, 0, "", 0)?)?;
    for count in 0..course.lines.len() {
        push_states(alloc, course, count, &mut states)?;
    }
    Ok(states)
}

// Whether one of these states may be what is said where so many bytes were printed.
fn is_allowed(states: &[State], printed: usize, says: &[u8]) -> bool {
    let mut count = 0;
    for state in states {
        if state.printed <= printed {
            count = state.most.max(count);
        }
    }
    states.iter().any(|state| {
        state.least <= count && count <= state.most && state.says.as_slice() == says
    })
}

/// Whether the store of a host that was stopped says what is allowed.
pub fn allows(
    alloc: Global,
    course: &Course,
    states: &[State],
    host: &mut MemHost,
) -> Result<bool, AllocError> {
    let printed = host.printed().len();
    let says = said(alloc, host, course.probe)?;
    Ok(is_allowed(states, printed, says.as_slice()))
}
