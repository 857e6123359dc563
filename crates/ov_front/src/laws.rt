//! Fronts that differ.

ghost use Rattle.std.specs.Prelude.{◌≡◌, ◌<ℤ◌, ℤ, List, Some};
ghost use Rattle.std.specs.declared.cmp.Ordering.TheVariants.{Less};
ghost use Rattle.ov_value.specs.Rows.{key_cmp};
ghost use Rattle.ov_value.specs.Shapes.{Shape};
ghost use Rattle.ov_value.specs.declared.value.Value.{Value};
ghost use Rattle.ov_front.specs.Fronts.{front_of};
ghost use Rattle.ov_front.specs.declared.front.Begin.{Begin};

/// A row's key whose front is less than another one's is less itself.
pub fn fronts_tell_keys()
    ensures { (begin : Begin) (schema : Shape) (a b : List Value) (x y : ℤ)
        → front_of begin schema a ≡ Some x → front_of begin schema b ≡ Some y → x <ℤ y → key_cmp schema a b ≡ Less }
{}
