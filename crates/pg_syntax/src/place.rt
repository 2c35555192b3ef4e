// Where a shape begins.
ghost use Rattle.std.specs.Prelude.{◌≡◌};
ghost use Rattle.pg_meaning.specs.Faults as meaning;
ghost use Rattle.pg_shape.specs.View.{shape as shape_in};

use pg_shape::Shape;

/// Where the shape's first token stands.
pub fn beginning(shape: &Shape<'_>) -> u32
    ensures { result ≡ meaning.beginning (shape_in shape.now) }
{
    match shape {
        Shape::Named(x) | Shape::Numeral(x) => x.at,
        Shape::Falsum(at)
        | Shape::Paren(at, _)
        | Shape::Next(at, _)
        | Shape::Neg(at, _)
        | Shape::Quant(at, _, _, _) => *at,
        Shape::App(f, _) => beginning(f.get()),
        Shape::Binary(_, _, l, _) => beginning(l.get()),
    }
}
