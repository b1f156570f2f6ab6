// What the colour converter goes by, over lent slices: documents 01, "The chip machine", and 02, request 04.
ghost use Rattle.std.specs.Prelude.{◌≡◌, [], ◌∷◌, length};
ghost use Rattle.lists.specs.Over.{over};
ghost use Rattle.matrix.specs.Coefficient.{coefficient_bytes};
ghost use Rattle.matrix.specs.Matrix.{fields};
ghost use Rattle.chip.specs.Machine.{matrix, converter, in_use};
ghost use Rattle.chip.specs.Write.{lent_as};
ghost use Rattle.views.specs.Converter.{ShowsMatrix};
ghost use Rattle.views.specs.Numbered.{count_told};

use chip::{Group, is_held};
use map::Map;
use matrix::Matrix;
use refusals::Refusal;

// A matrix of a mode and of 24 bytes of the map, as the request has it, over the front of a slice.
fn store_matrix(mode: u8, bytes: &[u8], out: &mut [u8])
    requires { length bytes.now ≡ 24 }
    ensures { out.new ≡ over (mode ∷ coefficient_bytes (fields bytes.now)) out.old }
{
    let sent = Matrix {
        on: 1,
        mode,
        coefficients: matrix::twelve(bytes),
    };
    lists::copy(&sent.body(), out);
}

// The 24 bytes in use: while the hold is up, or a lowered one waits, those of the buffer.
// Kept, no plainer: `Chip::matrix_in_use` asks a state, and no packet buffer is lent here.
fn in_use<'a>(image: &'a [u8; 256], coefficients: &'a [u8; 24], waits: bool) -> &'a [u8]
    ensures { result.now ≡ in_use converter matrix (lent_as image.now [] coefficients.now waits) }
{
    let is_buffered = waits || is_held(image[Map::COEFFICIENT_UPDATE as usize]);
    Group::MATRIX.in_use(image, coefficients, is_buffered)
}

/// The mode, which acts at once, and the twelve coefficients in use, 25 bytes as the request has them: refusals 7 and 10. While the hold is
/// up, or a lowered one waits, the buffer is in use.
pub fn matrix_in_use(
    image: &[u8],
    coefficients: &[u8],
    mark: u8,
    out: &mut [u8],
) -> Result<u32, Refusal>
    ensures { ShowsMatrix image.now coefficients.now mark out.old (count_told result) out.new }
{
    let image: &[u8; 256] = image.try_into().map_err(|_| Refusal::ImageLength)?;
    let coefficients: &[u8; 24] = coefficients.try_into().map_err(|_| Refusal::ImageLength)?;
    if out.len() < 25 {
        return Err(Refusal::BufferShort);
    }
    let mode = (image[Map::CSC as usize] >> Map::CSC_SCALING_FACTOR_SHIFT) % 4;
    store_matrix(mode, in_use(image, coefficients, mark != 0), out);
    Ok(25)
}
