// What holds of the rows by their definitions alone. These functions do nothing: their clauses are the laws.
ghost use Rattle.std.specs.Prelude.{◌≡◌};
ghost use Rattle.js_value.specs.Image.{image};
ghost use Rattle.js_value.specs.declared.value.Value.{Value};
ghost use Rattle.js_ops.specs.Convert.{to_number, to_text, as_text, is_missing};
ghost use Rattle.js_ops.specs.Rows as rows;
ghost use Rattle.js_ops.specs.declared.number.Arith.{Arith};
ghost use Rattle.js_ops.specs.declared.number.Bits.{Bits};

/// What the rows look through can't tell a wrap from its image.
pub fn conversions_look_at_images()
    ensures number { (v : Value) → to_number (image v) ≡ to_number v }
    ensures text { (v : Value) → to_text (image v) ≡ to_text v }
    ensures as_text { (v : Value) → as_text (image v) ≡ as_text v }
    ensures missing { (v : Value) → is_missing (image v) ≡ is_missing v }
{}

/// Nor can the rows.
pub fn rows_look_at_images()
    ensures add { (v w : Value) → rows.add (image v) (image w) ≡ rows.add v w }
    ensures arith { (op : Arith) (v w : Value) → rows.arith op (image v) (image w) ≡ rows.arith op v w }
    ensures bits { (op : Bits) (v w : Value) → rows.bits op (image v) (image w) ≡ rows.bits op v w }
    ensures less { (v w : Value) → rows.less (image v) (image w) ≡ rows.less v w }
    ensures equal_primitives { (v w : Value) → rows.equal_primitives (image v) (image w) ≡ rows.equal_primitives v w }
    ensures equal { (v w : Value) → rows.equal (image v) (image w) ≡ rows.equal v w }
{}
