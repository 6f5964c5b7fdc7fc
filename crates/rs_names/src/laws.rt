ghost use Rattle.rs_names.specs.Laws.{OneEach};

/// An item has one answer for each of its paths.
pub fn answers_are_paths()
    ensures { OneEach }
{}
