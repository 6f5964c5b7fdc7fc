ghost use Rattle.rs_emit.specs.Laws.{OffsetsAreSums, CodeHasLength, RelocsAreRight};

/// What the code of a member is: a label's offset is the sum of the lengths before its place, the code is as
/// long as its instructions, and its relocations are those of the grammar of objects (docs/FORMATS.md, "Objects").
pub fn code_is_right()
    ensures offsets { OffsetsAreSums }
    ensures length { CodeHasLength }
    ensures relocs { RelocsAreRight }
{}
