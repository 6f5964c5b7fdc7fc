use crate::query::Query;
use inc_base::Bytes;

/// What a provider says of a query after some reads: the next read, or the query's value.
#[derive(Debug, Drop)]
pub enum Answer {
    Read(Query),
    Value(Bytes),
}
