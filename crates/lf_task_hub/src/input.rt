//! What a hub serves, and from where it begins.

use lf_task_files::DesignInput;

/// What a hub serves, and from where it begins.
#[derive(Clone, Copy)]
pub struct HubInput<'a> {
    /// The design, and the state with which its journal begins.
    pub design: DesignInput<'a>,
    /// The names of the teams that are served. If empty, all teams are served.
    pub teams: &'a [&'a str],
    /// The folder of the sockets.
    pub sockets: &'a str,
    /// The folder of the journal.
    pub journal: &'a str,
}
