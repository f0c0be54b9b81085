// The shapes of values, and whether the topmost values of a stack have some.

ghost use Rattle.std.specs.Prelude.{◌≡◌, Bool, slice_get};
ghost use Rattle.stacks.specs.Shapes.{fits_at, all_fit};

use crate::stack::Stack;

/// A shape that a value of `V` has or not.
pub trait ShapeOf<V>: Copy {
    /// Which values have which shapes.
    ghost is_shape: { Self → V → Bool };

    /// Whether a value has this shape.
    fn is_of(self, value: &V) -> bool
        ensures { result ≡ is_shape self value.now };
}

/// Whether the value so far below the top has this shape.
fn has_shape<V: Drop, S: ShapeOf<V>>(values: &Stack<V>, depth: usize, shape: S) -> bool
    ensures { result ≡ fits_at S.is_shape shape (slice_get values.now depth) }
{
    match values.get(depth) {
        Some(value) => shape.is_of(value),
        None => false,
    }
}

/// The shape at this place, if there is one.
fn shape_at<S: Copy>(shapes: &[S], place: usize) -> Option<S>
    ensures { result ≡ slice_get shapes.now place }
{
    shapes.get(place).copied()
}

/// Whether the topmost values have these shapes, the topmost first.
#[inline(always)]
pub fn fits<V: Drop, S: ShapeOf<V>>(shapes: &[S], values: &Stack<V>) -> bool
    ensures { result ≡ all_fit S.is_shape shapes.now values.now }
{
    let mut depth: usize = 0;
    while let Some(shape) = shape_at(shapes, depth) {
        if !has_shape(values, depth, shape) {
            return false;
        }
        depth += 1;
    }
    true
}
