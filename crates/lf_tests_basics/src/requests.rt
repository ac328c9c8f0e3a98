//! Requests, replies and reports.

ghost use Rattle.std.specs.Prelude.{◌≡◌, ℕ, ◌∷◌, ◌++◌, List, None, Some, MatchResult};
ghost use Rattle.lf_proto.specs.Commands.{command_with_names};
ghost use Rattle.lf_proto.specs.Printed.{printed};
ghost use Rattle.lf_proto.specs.Requests.{IsPlain, command_on};

use lf_floorplan::Place;
use lf_orient::Orient;
use lf_proto::{
    Action, BadRequest, Change, Command, Refusal, Reply, Request, RequestList, TeamCommand,
    blanks_around_pass, blanks_between_pass, parse_line, printed_reads_back, reply_text,
    report_json,
};
use lf_rules::{Report, Rule, Violation};
use lf_units::{Name, Sequence};
use std::alloc::{AllocError, Global};
use std::test::Fail;

/// Reads the request of a line. A line that prints a request gives that request.
fn read_back<'a>(line: &'a [u8]) -> Result<Request<'a>, BadRequest>
    ensures { (command : Command (List ℕ) Place) → IsPlain command → line.now ≡ printed command
        → MatchResult result (λ request. command_with_names request ≡ command) (λ _. ⊥) }
{
    printed_reads_back();
    parse_line(line)
}

/// Reads a line, with the result for the line with one more space in front.
fn read_indented<'a>(line: &'a [u8]) -> Result<Request<'a>, BadRequest>
    ensures { MatchResult result (λ request. command_on (32 ∷ line.now) ≡ Some (command_with_names request))
        (λ _. command_on (32 ∷ line.now) ≡ None) }
{
    blanks_around_pass();
    parse_line(line)
}

/// Reads a line of two parts with a tab between them, with the result for two spaces between them.
fn read_tabbed<'a>(line: &'a [u8], front: &[u8], rest: &[u8]) -> Result<Request<'a>, BadRequest>
    requires { line.now ≡ front.now ++ 9 ∷ rest.now }
    ensures { MatchResult result (λ request. command_on (front.now ++ 32 ∷ 32 ∷ rest.now)
        ≡ Some (command_with_names request)) (λ _. command_on (front.now ++ 32 ∷ 32 ∷ rest.now) ≡ None) }
{
    blanks_between_pass();
    parse_line(line)
}

/// Returns the place in the request of a line.
fn requested_place(line: &[u8]) -> Option<Place> {
    let Ok(Command::To { order, .. }) = read_back(line) else {
        return None;
    };
    let TeamCommand::Within { action, .. } = order else {
        return None;
    };
    match action {
        Action::Change(Change::Place { place, .. }) => Some(place),
        _ => None,
    }
}

#[test]
fn reads_orientations(rt: HostRuntime) {
    let names: [(&[u8], Orient); 8] = [
        (b"place A 0 a1 1 2 N", Orient::N),
        (b"place A 0 a1 1 2 W", Orient::W),
        (b"place A 0 a1 1 2 S", Orient::S),
        (b"place A 0 a1 1 2 E", Orient::E),
        (b"place A 0 a1 1 2 FN", Orient::FN),
        (b"place A 0 a1 1 2 FW", Orient::FW),
        (b"place A 0 a1 1 2 FS", Orient::FS),
        (b"place A 0 a1 1 2 FE", Orient::FE),
    ];
    for (line, orient) in names {
        assert_eq!(rt; requested_place(line), Some(Place::new(1, 2, orient)));
    }
}

#[test]
fn reads_with_other_blanks(rt: HostRuntime) {
    assert!(rt; read_indented(b"open A").is_ok());
    assert!(rt; read_tabbed(b"open\tA", b"open", b"A").is_ok());
}

#[test]
fn takes_visible_bytes_and_blanks(rt: HostRuntime) {
    for byte in 0..=255u8 {
        let line = [b'o', b'p', b'e', b'n', b' ', b'A', byte];
        let may_be_placed = byte == 9 || (32 <= byte && byte <= 126);
        assert_eq!(rt; parse_line(&line).is_ok(), may_be_placed, "byte {byte}");
    }
}

/// Returns true if a reply with the cells a2 and a1 has this text.
fn has_text(alloc: Global, reply: Reply, line: &[u8]) -> Result<bool, AllocError> {
    let mut out = Vec::new(alloc);
    reply_text(&reply, b"a2", b"a1", &mut out)?;
    Ok(out.as_slice() == line)
}

#[test]
fn writes_replies(rt: HostRuntime) -> Result<(), Fail> {
    let opened = Reply::Opened {
        session: 7,
        revision: 4_000_000_000,
    };
    assert!(rt; has_text(rt.alloc(), opened, b"ok 7 4000000000\n")?);
    assert!(rt; has_text(rt.alloc(), Reply::Revision(0), b"ok 0\n")?);
    let names: [(Orient, &[u8]); 8] = [
        (Orient::N, b"ok 3600 -2147483647 N\n"),
        (Orient::W, b"ok 3600 -2147483647 W\n"),
        (Orient::S, b"ok 3600 -2147483647 S\n"),
        (Orient::E, b"ok 3600 -2147483647 E\n"),
        (Orient::FN, b"ok 3600 -2147483647 FN\n"),
        (Orient::FW, b"ok 3600 -2147483647 FW\n"),
        (Orient::FS, b"ok 3600 -2147483647 FS\n"),
        (Orient::FE, b"ok 3600 -2147483647 FE\n"),
    ];
    for (orient, line) in names {
        let at = Reply::At(Place::new(3600, -2_147_483_647, orient));
        assert!(rt; has_text(rt.alloc(), at, line)?);
    }
    Ok(())
}

#[test]
fn writes_changes(rt: HostRuntime) -> Result<(), Fail> {
    let best = Reply::Legalized {
        revision: 1,
        place: Place::new(3600, 0, Orient::N),
    };
    assert!(rt; has_text(rt.alloc(), best, b"ok 1 3600 0 N\n")?);
    let tidied = Reply::Tidied {
        revision: 1,
        moved: 3,
    };
    assert!(rt; has_text(rt.alloc(), tidied, b"ok 1 3\n")?);
    Ok(())
}

#[test]
fn writes_refusals(rt: HostRuntime) -> Result<(), Fail> {
    let refusals: [(Refusal, &[u8]); 11] = [
        (Refusal::BadRequest, b"no 1 BadRequest\n"),
        (Refusal::NoTeam, b"no 2 NoTeam\n"),
        (Refusal::NoSession, b"no 3 NoSession\n"),
        (Refusal::Stale { revision: 12 }, b"no 4 Stale 12\n"),
        (Refusal::NoCell, b"no 5 NoCell\n"),
        (Refusal::Unplaced { cell: 1 }, b"no 6 Unplaced a2\n"),
        (Refusal::NoPlace { cell: 1 }, b"no 8 NoPlace a2\n"),
        (Refusal::NothingToUndo, b"no 9 NothingToUndo\n"),
        (Refusal::SessionsFull, b"no 10 SessionsFull\n"),
        (Refusal::RevisionsSpent, b"no 11 RevisionsSpent\n"),
        (Refusal::OutOfMemory, b"no 12 OutOfMemory\n"),
    ];
    for (refusal, line) in refusals {
        assert!(rt; has_text(rt.alloc(), Reply::Refused(refusal), line)?);
    }
    Ok(())
}

#[test]
fn writes_broken_rules(rt: HostRuntime) -> Result<(), Fail> {
    let rules: [(Rule, Option<u32>, &[u8]); 8] = [
        (Rule::Height, None, b"no 7 Illegal 1 a2\n"),
        (Rule::Row, None, b"no 7 Illegal 2 a2\n"),
        (Rule::Stand, None, b"no 7 Illegal 3 a2\n"),
        (Rule::Orient, None, b"no 7 Illegal 4 a2\n"),
        (Rule::Rail, None, b"no 7 Illegal 5 a2\n"),
        (Rule::Fence, None, b"no 7 Illegal 6 a2\n"),
        (Rule::Obstacle, None, b"no 7 Illegal 7 a2\n"),
        (Rule::Overlap, Some(0), b"no 7 Illegal 8 a2 a1\n"),
    ];
    for (rule, other, line) in rules {
        let illegal = Refusal::Illegal {
            rule,
            cell: 1,
            other,
        };
        assert!(rt; has_text(rt.alloc(), Reply::Refused(illegal), line)?);
    }
    Ok(())
}

/// Returns true if the request is to the team of that name.
fn is_to(request: &Request<'_>, name: &[u8]) -> bool {
    match request {
        Command::Bye => false,
        Command::To { team, .. } => *team == name,
    }
}

/// Returns true if the list has a request to A and one to B.
fn is_to_both(list: &RequestList) -> bool {
    match (list.request(0), list.request(1), list.request(2)) {
        (Some(first), Some(second), None) => {
            list.len() == 2 && is_to(&first, b"A") && is_to(&second, b"B")
        }
        _ => false,
    }
}

/// Appends the request of a line.
fn push_line(list: &mut RequestList, line: &[u8]) -> Result<(), Fail> {
    match parse_line(line) {
        Ok(request) => Ok(list.push(&request)?),
        Err(_) => Err(Fail::from("a request")),
    }
}

#[test]
fn lists_requests(rt: HostRuntime) -> Result<(), Fail> {
    let mut list = RequestList::new(rt.alloc());
    assert!(rt; list.is_empty());
    push_line(&mut list, b"open A")?;
    push_line(&mut list, b"place B 3 b1 5 6 E")?;
    assert!(rt; is_to_both(&list));
    Ok(())
}

#[test]
fn writes_reports(rt: HostRuntime) -> Result<(), Fail> {
    let alloc = rt.alloc();
    let violations = vec![in alloc;
        Violation {
            cell: Name::from_slice(alloc, b"a1")?,
            rule: Rule::Overlap,
            other: Some(Name::from_slice(alloc, b"a\"2\\")?),
        },
        Violation {
            cell: Name::from_slice(alloc, b"b1")?,
            rule: Rule::Fence,
            other: None,
        },
    ]?;
    let report = Report {
        cells: 3,
        unplaced: 1,
        violations: Sequence::from_vec(violations),
    };
    let text = report_json(alloc, &report)?;
    let expected =
        b"{\"cells\":3,\"unplaced\":1,\"violations\":[{\"cell\":\"a1\",\"other\":\"a\\\"2\\\\\",\"rule\":8},{\"cell\":\"b1\",\"rule\":6}]}";
    assert!(rt; text.as_bytes() == expected.as_slice());
    Ok(())
}
