// What holds of images by the definitions alone. These functions do nothing: their clauses are the
// laws.
ghost use Rattle.js_host.specs.Images.{HostImages, RowsCommute};
ghost use Rattle.js_reference.specs.Hosted.{hosted};
ghost use Rattle.js_reference.specs.Own.{OwnProperties};
ghost use Rattle.js_host.specs.Rows.{HostRows};
ghost use Rattle.js_plain.specs.Heaps.{ObjectsCommute, ScopesCommute};
ghost use Rattle.js_plain.specs.Images.{OwnCommute};
ghost use Rattle.js_plain.specs.Operations.{OperationsCommute, ValuesCommute};
ghost use Rattle.js_plain.specs.Operators.{OperatorsCommute};

/// What a heap's calls mean commutes with the plain image: of the image they give the image.
pub fn heaps_commute_with_the_image()
    ensures objects { ObjectsCommute }
    ensures scopes { ScopesCommute }
    ensures values { ValuesCommute }
{}

/// Operations commute with the image over each host whose own properties do, as every lawful host's
/// do.
pub fn operations_commute_with_the_image<H, D>()
    ensures operations { (g : H → H) (O : OwnProperties H) → OwnCommute g O → OperationsCommute g O }
    ensures operators { (g : H → H) (O : OwnProperties H) → OwnCommute g O → OperatorsCommute g O }
    ensures hosts { (R : HostRows H D) (I : HostImages H D) → RowsCommute I R →
        OwnCommute I.host (hosted R) }
{}
