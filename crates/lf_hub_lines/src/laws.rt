//! The hub's own lines are not requests.

ghost use Rattle.lf_hub_lines.specs.HubLines.{HubLinesAreNotRequests};

/// A law: a line of a client that the hub answers itself is not a request, so no request means
/// something else in a hub.
pub fn hub_lines_are_not_requests()
    ensures { HubLinesAreNotRequests }
{}
