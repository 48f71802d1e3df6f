//! The page round the data, as the files of the folder `page` give it.

ghost use Rattle.std.specs.Prelude.{◌≡◌, IfErr};

mod head_0;
mod tail_0;
mod tail_1;
mod tail_2;

use std::io::Write;
use uring_text::{Calls, TraceFault, write_all};

/// Writes the page with these data.
pub(crate) fn write_page<W: Write>(
    writer: &mut W,
    data: &str,
    writes: &mut Calls,
) -> Result<(), TraceFault>
    ensures { IfErr result (λ fault. fault ≡ TraceFault.Write) }
{
    let pieces = [
        head_0::PIECE,
        data.as_bytes(),
        tail_0::PIECE,
        tail_1::PIECE,
        tail_2::PIECE,
    ];
    for piece in pieces {
        write_all(writer, piece, writes)?;
    }
    Ok(())
}
