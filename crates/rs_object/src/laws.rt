ghost use Rattle.std.specs.Prelude.{◌≡◌};
ghost use Rattle.rs_object.specs.declared.object.Object.{Object};
ghost use Rattle.rs_object.specs.Fits.{FitsObject};
ghost use Rattle.rs_object.specs.Forms.{object_form};

/// Different objects have different bytes (docs/FORMATS.md, "Objects").
pub fn objects_differ()
    ensures { (o p : Object) → FitsObject o → FitsObject p → object_form o ≡ object_form p → o ≡ p }
{}
