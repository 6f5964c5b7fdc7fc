/// What stands in a file of a session (docs/FORMATS.md, "Files").
#[derive(Clone, Copy, Debug)]
pub enum Part {
    /// The graph: `dep-graph.bin`.
    Graph,
    /// The values of kinds 4 to 8: `query-cache.bin`.
    Cache,
    /// The list of the units' files: `work-products.bin`.
    Products,
    /// The object of the node at this position: `u-NAME.o`.
    Object(u32),
}
