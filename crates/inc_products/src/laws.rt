//! What a plan does.

ghost use Rattle.std.specs.Prelude.{◌≡◌, List, map};
ghost use Rattle.inc_wire.specs.declared.header.Header.{Header};
ghost use Rattle.inc_graph.specs.Forms.{FitsGraph};
ghost use Rattle.inc_graph.specs.declared.node.Node.{Node};
ghost use Rattle.std.specs.List.Sorted.{IsStrictlySortedBy};
ghost use Rattle.inc_products.specs.Named.{AreOrdered, name_cmp};
ghost use Rattle.inc_products.specs.Plans.{File, applied, name_of, plan_of};
ghost use Rattle.inc_products.specs.Saved.{Value, files_of};
ghost use Rattle.inc_products.specs.Starts.{AreSaved, IsStart};
ghost use Rattle.inc_products.specs.declared.start.Start.{Start};
ghost use Rattle.inc_products.specs.declared.start.Start.TheVariants as start;

use inc_graph::files_differ;

/// The changes of a plan turn the old files into the wanted ones, and stand in the order of their names
/// (docs/ARCHITECTURE.md, "Saved files").
pub fn plans_turn_old_into_wanted()
    ensures turns { (old wanted : List File) → AreOrdered old → AreOrdered wanted → applied (plan_of old wanted) old ≡ wanted }
    ensures ordered { (old wanted : List File) → AreOrdered old → AreOrdered wanted → IsStrictlySortedBy name_cmp (map name_of (plan_of old wanted)) }
{}

/// The files of a graph and of the values that a session keeps of it are read as that graph and those values: so by the
/// contracts of what writes and reads them, what was written is read back (docs/FORMATS.md, "Files").
pub fn files_are_read_back()
    ensures { (h : Header) (nodes : List Node) (values : List Value) → FitsGraph nodes → AreSaved h nodes values → (came : Start) → IsStart h (files_of h nodes values) came → came ≡ start.Whole nodes values }
{
    files_differ();
}
