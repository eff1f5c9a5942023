/// Why a line is not what a host says to this one.
#[derive(Clone, Copy)]
pub enum MessageFault {
    /// It is no line of a host.
    Unknown,
    /// It is of another cluster.
    Cluster,
    /// It names another sender.
    From,
    /// It is for another host.
    To,
    /// Its frame goes from or to another node.
    Frame,
}
