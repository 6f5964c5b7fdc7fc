//! The roots of a build.

ghost use Rattle.std.specs.Prelude.{◌≡◌, ◌++◌, map, IfOk, OnOk};
ghost use Rattle.plan_laws.specs.Assembled.{check_query, checks_of, object_query, products_of};
ghost use Rattle.rs_plans.specs.Steps.{whole};

use inc_base::{Bytes, Copied, List, Memory};
use inc_query::{OBJECT, Query};
use rs_tree::{Index, IndexItem};
use rs_units::units;
use std::alloc::Global;

/// The kind of the index, of checks, and of the functions that are never used.
const INDEX: u8 = 1;

const CHECK: u8 = 5;

const DEAD: u8 = 7;

fn whole(alloc: Global, kind: u8) -> Query
    ensures { result ≡ whole kind }
{
    Query {
        kind,
        module: Bytes::new(alloc),
        name: Bytes::new(alloc),
    }
}

/// The query of the index.
pub(crate) fn index_query(alloc: Global) -> Query
    ensures { result ≡ whole 1 }
{
    whole(alloc, INDEX)
}

fn check_query(item: &IndexItem) -> Result<Query, Memory>
    ensures { IfOk result (λ q. q ≡ check_query item.now) }
{
    let module = item.module.copy()?;
    let name = item.name.copy()?;
    Ok(Query {
        kind: CHECK,
        module,
        name,
    })
}

/// The check of each item, in the order of the index.
pub(crate) fn checks_of(alloc: Global, index: &Index) -> Result<List<Query>, Memory>
    ensures { IfOk result (λ qs. qs ≡ checks_of index.now) }
{
    let mut queries = List::new(alloc);
    for item in index.items.as_slice() {
        queries.push(check_query(item)?)?;
    }
    Ok(queries)
}

fn object_query(unit: &Bytes) -> Result<Query, Memory>
    ensures { IfOk result (λ q. q ≡ object_query unit.now) }
{
    Ok(Query {
        kind: OBJECT,
        module: unit.copy()?,
        name: Bytes::new(unit.allocator()),
    })
}

/// The functions that are never used, and the object of each unit.
pub(crate) fn products_of(alloc: Global, index: &Index) -> Result<List<Query>, Memory>
    ensures { IfOk result (λ qs. qs ≡ products_of index.now) }
{
    let units = units(index)?;
    let mut queries = List::new(alloc);
    queries.push(whole(alloc, DEAD))?;
    put_objects(&mut queries, units.as_slice())?;
    Ok(queries)
}

fn put_objects(queries: &mut List<Query>, units: &[Bytes]) -> Result<(), Memory>
    ensures { OnOk result (queries.new ≡ queries.old ++ map object_query units.now) }
{
    for unit in units {
        queries.push(object_query(unit)?)?;
    }
    Ok(())
}
