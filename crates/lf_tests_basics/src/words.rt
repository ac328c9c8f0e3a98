//! The words of the command line.

use lf_cli::{
    ImproveOptions, LegalCells, RepairFiles, RepairOptions, Task, UsageFault, command_of,
};
use std::alloc::{AllocError, Global};
use std::test::Fail;

/// The meaning of the words: a task, whose LEF files are a slice here, or why there is no task.
#[derive(Clone, Copy, PartialEq, Eq)]
enum Named<'a> {
    Demo,
    Check {
        def: &'a str,
        lefs: &'a [&'a str],
        state: Option<&'a str>,
        sessions: u32,
        committed: bool,
    },
    Describe {
        def: &'a str,
        lefs: &'a [&'a str],
        state: Option<&'a str>,
        sessions: u32,
    },
    Wirelength {
        def: &'a str,
        lefs: &'a [&'a str],
        state: Option<&'a str>,
        sessions: u32,
    },
    Replay {
        def: &'a str,
        lefs: &'a [&'a str],
        state: Option<&'a str>,
        sessions: u32,
        journal: Option<&'a str>,
        lines: u32,
        save: Option<&'a str>,
        export: Option<&'a str>,
    },
    Serve {
        def: &'a str,
        lefs: &'a [&'a str],
        state: Option<&'a str>,
        sessions: u32,
        port: u16,
        connections: u32,
        save: Option<&'a str>,
        export: Option<&'a str>,
    },
    Hub {
        def: &'a str,
        lefs: &'a [&'a str],
        begin: Option<&'a str>,
        sessions: u32,
        teams: &'a [&'a str],
        sockets: &'a str,
        journal: &'a str,
    },
    Repair {
        def: &'a str,
        lefs: &'a [&'a str],
        state: Option<&'a str>,
        sessions: u32,
        teams: &'a [&'a str],
        options: RepairOptions,
        files: RepairFiles<'a>,
    },
    Improve {
        def: &'a str,
        lefs: &'a [&'a str],
        sessions: u32,
        teams: &'a [&'a str],
        within: Option<u32>,
        options: ImproveOptions,
        files: RepairFiles<'a>,
    },
    Nothing(UsageFault),
}

/// Converts the task to this type.
fn as_named<'a>(task: &'a Task<'a>) -> Named<'a> {
    match task {
        Task::Demo => Named::Demo,
        Task::Check {
            def,
            lefs,
            state,
            slots,
            committed,
        } => Named::Check {
            def: *def,
            lefs: lefs.as_slice(),
            state: *state,
            sessions: slots.number,
            committed: *committed,
        },
        Task::Describe {
            def,
            lefs,
            state,
            slots,
        } => Named::Describe {
            def: *def,
            lefs: lefs.as_slice(),
            state: *state,
            sessions: slots.number,
        },
        Task::Wirelength {
            def,
            lefs,
            state,
            slots,
        } => Named::Wirelength {
            def: *def,
            lefs: lefs.as_slice(),
            state: *state,
            sessions: slots.number,
        },
        Task::Replay {
            def,
            lefs,
            state,
            slots,
            journal,
            lines,
            save,
            export,
        } => Named::Replay {
            def: *def,
            lefs: lefs.as_slice(),
            state: *state,
            sessions: slots.number,
            journal: *journal,
            lines: *lines,
            save: *save,
            export: *export,
        },
        Task::Serve {
            def,
            lefs,
            state,
            slots,
            port,
            connections,
            save,
            export,
        } => Named::Serve {
            def: *def,
            lefs: lefs.as_slice(),
            state: *state,
            sessions: slots.number,
            port: *port,
            connections: *connections,
            save: *save,
            export: *export,
        },
        Task::Hub {
            def,
            lefs,
            begin,
            slots,
            teams,
            sockets,
            journal,
        } => Named::Hub {
            def: *def,
            lefs: lefs.as_slice(),
            begin: *begin,
            sessions: slots.number,
            teams: teams.as_slice(),
            sockets: *sockets,
            journal: *journal,
        },
        Task::Repair {
            def,
            lefs,
            state,
            slots,
            teams,
            options,
            files,
        } => Named::Repair {
            def: *def,
            lefs: lefs.as_slice(),
            state: *state,
            sessions: slots.number,
            teams: teams.as_slice(),
            options: *options,
            files: *files,
        },
        Task::Improve {
            def,
            lefs,
            slots,
            teams,
            within,
            options,
            files,
        } => Named::Improve {
            def: *def,
            lefs: lefs.as_slice(),
            sessions: slots.number,
            teams: teams.as_slice(),
            within: *within,
            options: *options,
            files: *files,
        },
    }
}

/// Returns true if this is the meaning.
fn is_named(task: &Result<Task<'_>, UsageFault>, named: &Named<'_>) -> bool {
    match task {
        Ok(task) => as_named(task) == *named,
        Err(fault) => Named::Nothing(*fault) == *named,
    }
}

/// The words of a line.
fn words_of<'a>(alloc: Global, line: &'a str) -> Result<Vec<&'a str>, AllocError> {
    line.split_whitespace().collect(alloc)
}

/// Returns true if this is the meaning of the words of the line.
fn names(alloc: Global, line: &str, named: &Named<'_>) -> Result<bool, AllocError> {
    let words = words_of(alloc, line)?;
    Ok(is_named(&command_of(alloc, words.as_slice()), named))
}

/// Returns true if this is the meaning of the words of each of the lines.
fn all_name(alloc: Global, lines: &[&str], named: &Named<'_>) -> Result<bool, AllocError> {
    for line in lines {
        if !names(alloc, line, named)? {
            return Ok(false);
        }
    }
    Ok(true)
}

#[test]
fn words_name_the_demo_a_check_and_a_description(rt: HostRuntime) -> Result<(), Fail> {
    let lines = ["lefence", "lefence demo"];
    assert!(rt; all_name(rt.alloc(), lines.as_slice(), &Named::Demo)?);
    let check = Named::Check {
        def: "x.def",
        lefs: &["x.lef"],
        state: None,
        sessions: 8,
        committed: false,
    };
    assert!(rt; names(rt.alloc(), "lefence check x.def x.lef", &check)?);
    let describe = Named::Describe {
        def: "x.def",
        lefs: &["x.lef"],
        state: None,
        sessions: 8,
    };
    assert!(rt; names(rt.alloc(), "lefence describe x.def x.lef", &describe)?);
    let wirelength = Named::Wirelength {
        def: "x.def",
        lefs: &["x.lef"],
        state: Some("s"),
        sessions: 3,
    };
    assert!(rt;
        names(
            rt.alloc(),
            "lefence wirelength x.def --state s x.lef --sessions 3",
            &wirelength
        )?
    );
    Ok(())
}

/// After two hyphens, paths may begin with a hyphen.
#[test]
fn words_name_a_replay(rt: HostRuntime) -> Result<(), Fail> {
    let lines = [
        "lefence replay w.def w.lef x.lef",
        "lefence replay -- w.def w.lef x.lef",
        "lefence replay w.def -- w.lef x.lef",
    ];
    let replay = Named::Replay {
        def: "w.def",
        lefs: &["w.lef", "x.lef"],
        state: None,
        sessions: 8,
        journal: None,
        lines: 1_000_000,
        save: None,
        export: None,
    };
    assert!(rt; all_name(rt.alloc(), lines.as_slice(), &replay)?);
    let replay = Named::Replay {
        def: "-w.def",
        lefs: &["--"],
        state: None,
        sessions: 8,
        journal: None,
        lines: 1_000_000,
        save: None,
        export: None,
    };
    assert!(rt; names(rt.alloc(), "lefence replay -- -w.def --", &replay)?);
    Ok(())
}

#[test]
fn words_name_the_file_of_an_export(rt: HostRuntime) -> Result<(), Fail> {
    for (line, path) in [
        ("lefence replay --export x a b", "x"),
        ("lefence replay a b --export=x=y", "x=y"),
        ("lefence replay a b --export=", ""),
    ] {
        let replay = Named::Replay {
            def: "a",
            lefs: &["b"],
            state: None,
            sessions: 8,
            journal: None,
            lines: 1_000_000,
            save: None,
            export: Some(path),
        };
        assert!(rt; names(rt.alloc(), line, &replay)?);
    }
    Ok(())
}

#[test]
fn words_name_the_most_lines(rt: HostRuntime) -> Result<(), Fail> {
    for (line, lines) in [
        ("lefence replay a b --lines 1", 1),
        ("lefence replay --lines=4294967295 a b", 4_294_967_295),
    ] {
        let replay = Named::Replay {
            def: "a",
            lefs: &["b"],
            state: None,
            sessions: 8,
            journal: None,
            lines,
            save: None,
            export: None,
        };
        assert!(rt; names(rt.alloc(), line, &replay)?);
    }
    Ok(())
}

#[test]
fn words_name_a_hub(rt: HostRuntime) -> Result<(), Fail> {
    let hub = Named::Hub {
        def: "a",
        lefs: &["b"],
        begin: None,
        sessions: 8,
        teams: &[],
        sockets: "s",
        journal: "j",
    };
    assert!(rt; names(rt.alloc(), "lefence hub a b --sockets s --journal j", &hub)?);
    let hub = Named::Hub {
        def: "a",
        lefs: &["b"],
        begin: Some("x"),
        sessions: 3,
        teams: &["A", "-"],
        sockets: "s",
        journal: "j",
    };
    let line = "lefence hub --team A --team - --begin x --sessions 3 --journal=j --sockets=s a b";
    assert!(rt; names(rt.alloc(), line, &hub)?);
    let nothing = Named::Nothing(UsageFault::Usage);
    let lines = ["lefence hub a b --sockets s", "lefence hub a b --journal j"];
    assert!(rt; all_name(rt.alloc(), lines.as_slice(), &nothing)?);
    Ok(())
}

#[test]
fn words_name_a_service(rt: HostRuntime) -> Result<(), Fail> {
    for (line, port) in [
        ("lefence serve a b --port 80 --connections 3", 80),
        ("lefence serve --connections=3 a b --port +065535", 65535),
    ] {
        let service = Named::Serve {
            def: "a",
            lefs: &["b"],
            state: None,
            sessions: 8,
            port,
            connections: 3,
            save: None,
            export: None,
        };
        assert!(rt; names(rt.alloc(), line, &service)?);
    }
    Ok(())
}

/// A saved state is shown.
#[test]
fn words_name_the_state_that_is_looked_at(rt: HostRuntime) -> Result<(), Fail> {
    let check = Named::Check {
        def: "a",
        lefs: &["b", "c"],
        state: Some("s"),
        sessions: 8,
        committed: false,
    };
    let lines = [
        "lefence check a b c --state s",
        "lefence check --state=s a b c",
    ];
    assert!(rt; all_name(rt.alloc(), lines.as_slice(), &check)?);
    let describe = Named::Describe {
        def: "a",
        lefs: &["b"],
        state: Some("-"),
        sessions: 8,
    };
    assert!(rt; names(rt.alloc(), "lefence describe a --state - b", &describe)?);
    Ok(())
}

/// The committed places of a saved state are shown.
#[test]
fn words_name_the_committed_places(rt: HostRuntime) -> Result<(), Fail> {
    for (line, state) in [
        ("lefence check a b --committed", None),
        ("lefence check a b --state s --committed", Some("s")),
        ("lefence check --committed a --state=s b", Some("s")),
    ] {
        let check = Named::Check {
            def: "a",
            lefs: &["b"],
            state,
            sessions: 8,
            committed: true,
        };
        assert!(rt; names(rt.alloc(), line, &check)?, "{line}");
    }
    Ok(())
}

/// A repair begins with a saved state, and writes all of its files.
#[test]
fn words_name_the_files_of_a_repair(rt: HostRuntime) -> Result<(), Fail> {
    let files = RepairFiles {
        export: Some("a"),
        working: Some("w"),
        lines: Some("l"),
        save: Some("s"),
    };
    let repair = Named::Repair {
        def: "a",
        lefs: &["b"],
        state: Some("s"),
        sessions: 9,
        teams: &["A"],
        options: RepairOptions {
            legal: LegalCells::KeepLegal,
            tries: 20,
            within: None,
            balances_heights: false,
            near_nets: false,
        },
        files,
    };
    let lines = [
        "lefence repair a b --state s --sessions 9 --team A --keep --export a --export-working w --lines l --save s",
        "lefence repair --save=s --lines=l --export-working=w --export=a --keep --team=A --sessions=9 --state=s a b",
    ];
    assert!(rt; all_name(rt.alloc(), lines.as_slice(), &repair)?);
    Ok(())
}

/// The options of a repair's search.
#[test]
fn words_name_the_search_of_a_repair(rt: HostRuntime) -> Result<(), Fail> {
    let repair = Named::Repair {
        def: "a",
        lefs: &["b"],
        state: None,
        sessions: 8,
        teams: &[],
        options: RepairOptions {
            legal: LegalCells::MoveAsNeeded,
            tries: 1_000_000,
            within: Some(65_535),
            balances_heights: true,
            near_nets: true,
        },
        files: RepairFiles {
            export: None,
            working: None,
            lines: None,
            save: None,
        },
    };
    let lines = [
        "lefence repair a b --effort 10000 --within 65535 --balance-heights --near-nets",
        "lefence repair --near-nets --balance-heights --within=65535 --effort=10000 a b",
    ];
    assert!(rt; all_name(rt.alloc(), lines.as_slice(), &repair)?);
    Ok(())
}

/// An improvement without options is of all teams and not limited.
#[test]
fn words_name_an_improvement(rt: HostRuntime) -> Result<(), Fail> {
    let improve = Named::Improve {
        def: "a",
        lefs: &["b"],
        sessions: 8,
        teams: &[],
        within: None,
        options: ImproveOptions {
            rounds: 4,
            moves: 0,
            density: None,
        },
        files: RepairFiles {
            export: None,
            working: None,
            lines: None,
            save: None,
        },
    };
    assert!(rt; names(rt.alloc(), "lefence improve a b", &improve)?);
    let improve = Named::Improve {
        def: "a",
        lefs: &["b", "c"],
        sessions: 9,
        teams: &["B", "A", "-"],
        within: Some(65_535),
        options: ImproveOptions {
            rounds: 100,
            moves: 10_000,
            density: Some(100),
        },
        files: RepairFiles {
            export: Some("a"),
            working: None,
            lines: Some("l"),
            save: None,
        },
    };
    let lines = [
        "lefence improve a b c --team B --team A --team - --within 65535 --rounds 100 --effort 10000 --density 100 --sessions 9 --export a --lines l",
        "lefence improve --lines=l --export=a --sessions=9 --density=100 --effort=10000 --rounds=+100 --within=065535 --team=B --team=A --team=- a b c",
    ];
    assert!(rt; all_name(rt.alloc(), lines.as_slice(), &improve)?);
    Ok(())
}

/// A number of session slots is given.
#[test]
fn words_name_the_number_of_sessions(rt: HostRuntime) -> Result<(), Fail> {
    for (line, sessions) in [
        ("lefence check a b --sessions 1", 1),
        ("lefence check --sessions=+9 a b", 9),
        ("lefence check a b --sessions 064", 64),
    ] {
        let check = Named::Check {
            def: "a",
            lefs: &["b"],
            state: None,
            sessions,
            committed: false,
        };
        assert!(rt; names(rt.alloc(), line, &check)?, "{line}");
    }
    let describe = Named::Describe {
        def: "a",
        lefs: &["b"],
        state: None,
        sessions: 9,
    };
    assert!(rt; names(rt.alloc(), "lefence describe a b --sessions 9", &describe)?);
    let replay = Named::Replay {
        def: "a",
        lefs: &["b"],
        state: None,
        sessions: 64,
        journal: None,
        lines: 3,
        save: None,
        export: None,
    };
    assert!(rt;
        names(
            rt.alloc(),
            "lefence replay a b --sessions 64 --lines 3",
            &replay
        )?
    );
    let service = Named::Serve {
        def: "a",
        lefs: &["b"],
        state: None,
        sessions: 9,
        port: 80,
        connections: 3,
        save: None,
        export: None,
    };
    assert!(rt;
        names(
            rt.alloc(),
            "lefence serve a b --port 80 --sessions 9 --connections 3",
            &service
        )?
    );
    Ok(())
}

#[test]
fn other_numbers_of_sessions_are_refused(rt: HostRuntime) -> Result<(), Fail> {
    let lines = [
        "lefence check a b --sessions 0",
        "lefence check a b --sessions 65",
        "lefence describe a b --sessions x",
        "lefence describe a b --sessions -1",
        "lefence replay a b --sessions",
        "lefence replay a b --sessions 0",
        "lefence replay a b --sessions 65",
        "lefence replay a b --sessions 4294967304",
        "lefence replay a b --sessions 9 --sessions 9",
        "lefence serve a b --port 80 --connections 3 --sessions 65",
        "lefence repair a b --sessions 65",
        "lefence improve a b --sessions 65",
        "lefence demo --sessions 9",
    ];
    let nothing = Named::Nothing(UsageFault::Usage);
    assert!(rt; all_name(rt.alloc(), lines.as_slice(), &nothing)?);
    Ok(())
}

/// A saved state is restored or saved.
#[test]
fn words_name_the_files_of_states(rt: HostRuntime) -> Result<(), Fail> {
    let replay = Named::Replay {
        def: "a",
        lefs: &["b"],
        state: Some("s"),
        sessions: 8,
        journal: None,
        lines: 1_000_000,
        save: Some("s"),
        export: None,
    };
    let lines = [
        "lefence replay a b --state s --save s",
        "lefence replay --save=s a --state=s b",
    ];
    assert!(rt; all_name(rt.alloc(), lines.as_slice(), &replay)?);
    let service = Named::Serve {
        def: "a",
        lefs: &["b"],
        state: None,
        sessions: 8,
        port: 80,
        connections: 3,
        save: Some("s"),
        export: None,
    };
    assert!(rt;
        names(
            rt.alloc(),
            "lefence serve a b --port 80 --save s --connections 3",
            &service
        )?
    );
    Ok(())
}

/// The exported text may replace the DEF text. The saved state may replace the one that was read,
/// as above.
#[test]
fn an_exported_text_may_replace_the_def_text(rt: HostRuntime) -> Result<(), Fail> {
    let replay = Named::Replay {
        def: "a",
        lefs: &["b"],
        state: Some("s"),
        sessions: 8,
        journal: None,
        lines: 1_000_000,
        save: Some("s"),
        export: Some("a"),
    };
    assert!(rt;
        names(
            rt.alloc(),
            "lefence replay a b --state s --save s --export a",
            &replay
        )?
    );
    let nothing = Named::Nothing(UsageFault::Usage);
    assert!(rt;
        !names(
            rt.alloc(),
            "lefence repair a b --export a --lines x",
            &nothing
        )?
    );
    Ok(())
}

/// No output replaces another text that is read, and no two outputs have the same file.
#[test]
fn files_of_other_arguments_are_not_written(rt: HostRuntime) -> Result<(), Fail> {
    let lines = [
        "lefence replay a b c --export b",
        "lefence replay a b c --export c",
        "lefence replay a b c --state s --export s",
        "lefence replay a b c --save a",
        "lefence replay a b c --save b",
        "lefence replay a b c --save=c --state=s",
        "lefence replay a b --state a --save a",
        "lefence replay a b --save x --export x",
        "lefence replay a b --state s --save s --export s",
        "lefence serve a b c --port 80 --connections 3 --export c",
        "lefence serve a b c --port 80 --connections 3 --state s --export s",
        "lefence serve a b --port 80 --connections 3 --save a",
        "lefence serve a b --port 80 --connections 3 --save b",
        "lefence serve a b --port 80 --connections 3 --save x --export x",
        "lefence repair a b --export b",
        "lefence repair a b --lines a",
        "lefence repair a b c --lines c",
        "lefence repair a b --export x --lines x",
        "lefence repair a b --export a --lines a",
        "lefence repair a b --state s --lines s",
        "lefence repair a b --state s --export s",
        "lefence repair a b --state s --export-working s",
        "lefence repair a b --save a",
        "lefence repair a b c --save c",
        "lefence repair a b --save x --lines x",
        "lefence repair a b --save x --export x",
        "lefence repair a b --export-working a",
        "lefence repair a b c --export-working c",
        "lefence repair a b --export-working x --export x",
        "lefence repair a b --export-working x --lines x",
        "lefence repair a b --export-working x --save x",
        "lefence improve a b c --export c",
        "lefence improve a b --lines a",
        "lefence improve a b c --lines c",
        "lefence improve a b --export x --lines x",
        "lefence improve a b --export a --lines a",
    ];
    let nothing = Named::Nothing(UsageFault::Usage);
    assert!(rt; all_name(rt.alloc(), lines.as_slice(), &nothing)?);
    Ok(())
}

#[test]
fn other_words_are_refused(rt: HostRuntime) -> Result<(), Fail> {
    let lines = [
        "lefence verify",
        "lefence help",
        "lefence --help",
        "lefence -V",
        "lefence --version",
        "lefence demo more",
        "lefence demo --export x",
        "lefence check",
        "lefence check x.def",
        "lefence check x.def x.lef --export",
        "lefence replay",
        "lefence replay w.def",
        "lefence replay -- w.def",
        "lefence replay -h w.def w.lef",
        "lefence replay w.def w.lef -x",
        "lefence replay w.def w.lef --export",
        "lefence replay w.def w.lef --export -x",
        "lefence replay w.def w.lef --export=x --export=y",
        "lefence replay w.def w.lef --exp x",
        "lefence replay w.def w.lef --port 80",
        "lefence replay w.def w.lef --lines 0",
        "lefence replay w.def w.lef --lines 4294967296",
        "lefence replay w.def w.lef --lines 5 --lines 5",
        "lefence describe x.def",
        "lefence describe x.def x.lef --lines 5",
        "lefence describe x.def x.lef --save s",
        "lefence check x.def x.lef --state",
        "lefence check x.def x.lef --state s --state s",
        "lefence replay x.def x.lef --state s --state s",
        "lefence repair x.def",
        "lefence repair x.def x.lef --keep --all",
        "lefence repair x.def x.lef --all --keep",
        "lefence repair x.def x.lef --keep --keep",
        "lefence repair x.def x.lef --keep=true",
        "lefence repair x.def x.lef --team",
        "lefence repair x.def x.lef --team -x",
        "lefence repair x.def x.lef --state s --state s",
        "lefence repair x.def x.lef --save",
        "lefence repair x.def x.lef --export-working",
        "lefence improve x.def",
        "lefence improve x.def x.lef --within 0",
        "lefence improve x.def x.lef --within 65536",
        "lefence improve x.def x.lef --within",
        "lefence improve x.def x.lef --within 2 --within 2",
        "lefence improve x.def x.lef --rounds 0",
        "lefence improve x.def x.lef --rounds 101",
        "lefence improve x.def x.lef --team",
        "lefence improve x.def x.lef --keep",
        "lefence improve x.def x.lef --state s",
        "lefence improve x.def x.lef --save s",
        "lefence improve x.def x.lef --export-working w",
        "lefence check x.def x.lef --committed --committed",
        "lefence check x.def x.lef --committed=true",
        "lefence describe x.def x.lef --committed",
        "lefence wirelength x.def",
        "lefence wirelength x.def x.lef --export s",
        "lefence replay x.def x.lef --export-working w",
        "lefence replay x.def x.lef --save s --save s",
    ];
    let nothing = Named::Nothing(UsageFault::Usage);
    assert!(rt; all_name(rt.alloc(), lines.as_slice(), &nothing)?);
    Ok(())
}

#[test]
fn other_services_are_refused(rt: HostRuntime) -> Result<(), Fail> {
    let lines = [
        "lefence serve w.def w.lef",
        "lefence serve a b --port 0 --connections 3",
        "lefence serve a b --port 65536 --connections 3",
        "lefence serve a b --port -1 --connections 3",
        "lefence serve a b --port 8x --connections 3",
        "lefence serve a b --port 80 --connections 0",
        "lefence serve a b --port 80 --connections 1000001",
        "lefence serve a b --port 80",
        "lefence serve a b --connections 3",
        "lefence serve a --port 80 --connections 3",
        "lefence serve a b --port 80 --connections 3 --lines 5",
    ];
    let nothing = Named::Nothing(UsageFault::Usage);
    assert!(rt; all_name(rt.alloc(), lines.as_slice(), &nothing)?);
    Ok(())
}
