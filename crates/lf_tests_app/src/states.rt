//! States that are saved and continued from, over files in memory.

use crate::tasks::{Kept, Run, done, exporting, files_of, only_lef, with_entries};
use lf_app::{Slots, Task};
use lf_def::DEMO_DEF;
use lf_lef::DEMO_LEF;
use std::alloc::{AllocError, Global};
use std::test::Fail;

/// The path of each state.
const STATE: &str = "w.state";

/// Lines before a state is saved, and lines after it.
const BEFORE: &str = "open A\nplace A 0 a1 0 0 N\ncommit A 0\nplace A 0 a1 400 0 N\nopen B\n\
    place B 0 b1 6000 0 N\npad B 0 2\n";

const AFTER_END: &str =
    "where A 0 a1\nundo A 0\nwhere A 0 a1\nundo A 0\nwhere A 0 a1\nrevert A 0\nopen A\n\
    undo A 0\nplace A 1 a2 400 0 N\nsync A 1\nplace A 1 a2 400 0 N\nwhere B 0 b1\ncommit B 0\ncheck B 0\n";

/// The replay of `w.def` over `w.lef` with these session slots, which begins in this state and
/// saves to this path.
fn replay_with<'a>(
    alloc: Global,
    slots: Slots,
    state: Option<&'a str>,
    save: Option<&'a str>,
) -> Result<Task<'a>, AllocError> {
    Ok(Task::Replay {
        def: "w.def",
        lefs: only_lef(alloc)?,
        state,
        slots,
        journal: None,
        lines: 1_000_000,
        save,
        export: None,
    })
}

/// The same with the default number of session slots.
fn replay_of<'a>(
    alloc: Global,
    state: Option<&'a str>,
    save: Option<&'a str>,
) -> Result<Task<'a>, AllocError> {
    replay_with(alloc, Slots::standard(), state, save)
}

/// The files of the sample, and this text as a state.
fn files_with<'a>(state: &'a [u8]) -> [(&'a str, Option<&'a [u8]>); 3] {
    [
        ("w.lef", Some(DEMO_LEF)),
        ("w.def", Some(DEMO_DEF)),
        (STATE, Some(state)),
    ]
}

/// Returns the saved state of the floor after these lines.
fn saved_after(rt: &HostRuntime, lines: &str) -> Result<Vec<u8>, AllocError> {
    let task = replay_of(rt.alloc(), None, Some(STATE))?;
    let mut exports = Kept::at(rt.alloc(), Some(STATE));
    let files = files_of(DEMO_DEF);
    let mut reader = lines.as_bytes();
    exporting(rt, files.as_slice(), &mut exports, &task, &mut reader);
    match exports.text {
        Some(text) => Ok(text),
        None => Ok(Vec::new(rt.alloc())),
    }
}

/// Replays these lines, beginning in this state.
fn gone_on(rt: &HostRuntime, state: &[u8], lines: &str) -> Result<Run, AllocError> {
    let task = replay_of(rt.alloc(), Some(STATE), None)?;
    let files = files_with(state);
    Ok(done(rt, files.as_slice(), &task, lines))
}

/// Replays these lines, beginning without a state.
fn begun(rt: &HostRuntime, lines: &str) -> Result<Run, AllocError> {
    let task = replay_of(rt.alloc(), None, None)?;
    let files = files_of(DEMO_DEF);
    Ok(done(rt, files.as_slice(), &task, lines))
}

#[test]
fn a_state_and_the_lines_after_it_answer_as_all_lines(rt: HostRuntime) -> Result<(), Fail> {
    let state = saved_after(&rt, BEFORE)?;
    let before = begun(&rt, BEFORE)?;
    let after_it = gone_on(&rt, &state, AFTER_END)?;
    let mut lines = Vec::from_slice(rt.alloc(), BEFORE.as_bytes())?;
    lines.extend_from_slice(AFTER_END.as_bytes())?;
    let mut exports = Kept::at(rt.alloc(), None);
    let task = replay_of(rt.alloc(), None, None)?;
    let files = files_of(DEMO_DEF);
    let mut reader = lines.as_slice();
    let all = exporting(&rt, files.as_slice(), &mut exports, &task, &mut reader);
    let mut replies = before.written;
    replies.extend_from_slice(&after_it.written)?;
    assert!(rt; replies.as_slice() == all.written.as_slice());
    Ok(())
}

#[test]
fn what_is_restored_is_saved_as_it_was(rt: HostRuntime) -> Result<(), Fail> {
    let state = saved_after(&rt, BEFORE)?;
    let task = replay_of(rt.alloc(), Some(STATE), Some(STATE))?;
    let mut exports = Kept::at(rt.alloc(), Some(STATE));
    let files = files_with(&state);
    let mut reader = b"".as_slice();
    let run = exporting(&rt, files.as_slice(), &mut exports, &task, &mut reader);
    assert!(rt; run.is_put(0, "", "") && exports.holds(&state));
    Ok(())
}

/// The commands that open nine sessions of a team.
const NINE: &str = "open A\nopen A\nopen A\nopen A\nopen A\nopen A\nopen A\nopen A\nopen A\n";

/// Replays the nine lines with these session slots, and returns the run and the saved state.
fn nine_opened(rt: &HostRuntime, slots: Slots) -> Result<(Run, Vec<u8>), AllocError> {
    let task = replay_with(rt.alloc(), slots, None, Some(STATE))?;
    let mut exports = Kept::at(rt.alloc(), Some(STATE));
    let mut reader = NINE.as_bytes();
    let files = files_of(DEMO_DEF);
    let run = exporting(rt, files.as_slice(), &mut exports, &task, &mut reader);
    match exports.text {
        Some(text) => Ok((run, text)),
        None => Ok((run, Vec::new(rt.alloc()))),
    }
}

#[test]
fn a_team_has_as_many_sessions_as_slots(rt: HostRuntime) -> Result<(), Fail> {
    let eight = "ok 0 0\nok 1 0\nok 2 0\nok 3 0\nok 4 0\nok 5 0\nok 6 0\nok 7 0\n";
    let mut full = Vec::from_slice(rt.alloc(), eight.as_bytes())?;
    full.extend_from_slice(b"no 10 SessionsFull\n")?;
    let (run, _) = nine_opened(&rt, Slots::standard())?;
    assert!(rt; run.written.as_slice() == full.as_slice());
    let mut open = Vec::from_slice(rt.alloc(), eight.as_bytes())?;
    open.extend_from_slice(b"ok 8 0\n")?;
    let (run, state) = nine_opened(&rt, Slots { number: 9 })?;
    assert!(rt; run.written.as_slice() == open.as_slice());
    let other =
        "lefence: 26 OtherDesign line 3\nlefence: state file w.state, line 3: team A 0 0 9 3 0\n";
    assert!(rt; checked(&rt, &state)?.is(1, "", other));
    Ok(())
}

/// Checks `w.def` over `w.lef`, with the working places of this state.
fn checked(rt: &HostRuntime, state: &[u8]) -> Result<Run, AllocError> {
    let task = Task::Check {
        def: "w.def",
        lefs: only_lef(rt.alloc())?,
        state: Some(STATE),
        slots: Slots::standard(),
        committed: false,
    };
    Ok(done(rt, &files_with(state), &task, ""))
}

#[test]
fn a_check_sees_the_working_places_of_a_state(rt: HostRuntime) -> Result<(), Fail> {
    let state = saved_after(&rt, BEFORE)?;
    let report = "{\"cells\":5,\"unplaced\":3,\"violations\":[]}\n";
    assert!(rt; checked(&rt, &state)?.is(4, report, ""));
    let design = "lefence: 26 OtherDesign line 2\nlefence: state file w.state, line 2: teams 9\n";
    assert!(rt; checked(&rt, b"lefence-state 1\nteams 9\n")?.is(1, "", design));
    Ok(())
}

/// The description of `w.def` over `w.lef`, with the working places of this state if one is given.
fn describe_of<'a>(alloc: Global, state: Option<&'a str>) -> Result<Task<'a>, AllocError> {
    Ok(Task::Describe {
        def: "w.def",
        lefs: only_lef(alloc)?,
        state,
        slots: Slots::standard(),
    })
}

#[test]
fn a_description_sees_the_working_places_of_a_state(rt: HostRuntime) -> Result<(), Fail> {
    let state = saved_after(&rt, BEFORE)?;
    let task = describe_of(rt.alloc(), Some(STATE))?;
    let seen = done(&rt, &files_with(&state), &task, "");
    let entries: [&[u8]; 4] = [
        b"- a1 INV + PLACED ( 400 0 ) N ;",
        b"- a2 INV + UNPLACED ;",
        b"- a3 DBL + WEIGHT 3 ;",
        b"- b1 INV + PLACED ( 6000 0 ) N ;",
    ];
    let text = with_entries(rt.alloc(), entries.as_slice())?;
    let task = describe_of(rt.alloc(), None)?;
    let placed = done(&rt, &files_of(&text), &task, "");
    assert!(rt; !seen.written.is_empty() && seen.written.as_slice() == placed.written.as_slice());
    Ok(())
}

/// Returns whether a replay in this state is refused with these fault lines, and writes no reply.
fn is_refused(rt: &HostRuntime, state: &[u8], faults: &str) -> Result<bool, AllocError> {
    Ok(gone_on(rt, state, "open A\n")?.is(1, "", faults))
}

#[test]
fn a_text_that_reports_no_state_is_refused(rt: HostRuntime) -> Result<(), Fail> {
    let version = "lefence: 25 OtherVersion line 1\n\
        lefence: state file w.state, line 1: lefence-state 2\n";
    assert!(rt; is_refused(&rt, b"lefence-state 2\nteams 3\n", version)?);
    let design = "lefence: 26 OtherDesign line 2\nlefence: state file w.state, line 2: teams 9\n";
    assert!(rt; is_refused(&rt, b"lefence-state 1\nteams 9\n", design)?);
    let end = "lefence: 2 UnexpectedEnd line 3\nlefence: state file w.state, line 3: team\n";
    assert!(rt; is_refused(&rt, b"lefence-state 1\nteams 3\nteam", end)?);
    Ok(())
}

#[test]
fn a_state_whose_file_is_not_there_is_refused(rt: HostRuntime) -> Result<(), Fail> {
    let task = replay_of(rt.alloc(), Some(STATE), None)?;
    let files = files_of(DEMO_DEF);
    let run = done(&rt, files.as_slice(), &task, "open A\n");
    let faults = "lefence: File\n\
        lefence: state file w.state cannot be read: there is no such file\n";
    assert!(rt; run.is(3, "", faults));
    Ok(())
}

#[test]
fn a_path_that_takes_no_state_is_reported_before_the_first_line(
    rt: HostRuntime,
) -> Result<(), Fail> {
    let task = replay_of(rt.alloc(), None, Some(STATE))?;
    let files = files_of(DEMO_DEF);
    let run = done(&rt, files.as_slice(), &task, "open A\n");
    assert!(rt;
        run.is(
            3,
            "",
            "lefence: File\nlefence: state file w.state cannot be written: permission denied\n"
        )
    );
    Ok(())
}
