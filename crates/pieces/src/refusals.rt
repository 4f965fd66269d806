// How a piece refuses.
ghost use Rattle.std.specs.Prelude.{◌≡◌, Err};
ghost use Rattle.elements.specs.declared.refusals.Layer.TheVariants.{Piece};

use elements::refusals::{Cause, Layer, Refusal};

// A refusal of layer piece.
pub fn refuse<T>(cause: Cause) -> Result<T, Refusal>
    ensures { result ≡ Err (record { layer = Piece; cause = cause }) }
{
    Err(Refusal {
        layer: Layer::Piece,
        cause,
    })
}
