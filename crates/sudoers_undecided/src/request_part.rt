//! The parts of a request.

/// What a user specification asks of a request, part by part.
#[derive(Clone, Copy, Debug, PartialEq, Eq, PartialOrd, Ord)]
pub enum RequestPart {
    /// Who runs the command.
    Users,
    /// On which host.
    Hosts,
    /// As which user: by the Runas_Spec, or by runas_default where there is none.
    RunasUsers,
    /// As which group, by the Runas_Spec.
    RunasGroups,
    /// When: by NOTBEFORE and NOTAFTER.
    Moment,
    /// Which command.
    Command,
}
