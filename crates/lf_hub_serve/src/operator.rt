//! The operator.

ghost use Rattle.std.specs.Prelude.{◌≡◌, [], codes, true};
ghost use Rattle.lf_hub_serve.specs.Servers.{IsStopped, service_of};

use crate::server::Server;
use lf_hub_wire::Wire;

/// Returns whether a line of the operator is `stop`.
fn is_stop(line: &[u8]) -> bool
    ensures { result ≡ true → line.now ≡ codes "stop" }
{
    match line {
        b"stop" => true,
        _ => false,
    }
}

/// Takes the operator's next line into the buffer and replies to it. Returns whether he wants the hub to
/// stop.
pub(crate) fn answer_operator<F, W: Wire>(server: &mut Server<F, W>, line: &mut Vec<u8>) -> bool
    ensures same { service_of W.calls server.new [] ≡ service_of W.calls server.old [] }
    ensures stopped { result ≡ true → IsStopped (W.orders server.new.wire) }
{
    if !server.wire.take_order(line) {
        return false;
    }
    if is_stop(line.as_slice()) {
        server.wire.answer_order(b"ok\n");
        return true;
    }
    server.wire.answer_order(b"no 1 BadRequest\n");
    false
}
