use inc_base::{Bytes, List};
use inc_query::Query;
use inc_wire::Print;

/// A query of this input.
#[derive(Debug, Drop)]
pub(crate) struct Done {
    pub query: Query,
    /// The print of its value.
    pub print: Print,
    /// The positions of its reads among the queries that were asked, in order.
    pub reads: List<u32>,
    /// Its value, where it is kept or was made.
    pub value: Option<Bytes>,
    /// Whether it was run.
    pub ran: bool,
}

/// What a run gave: the positions of the reads, in order, and the value.
#[derive(Debug, Drop)]
pub(crate) struct Ran {
    pub reads: List<u32>,
    pub value: Bytes,
}
