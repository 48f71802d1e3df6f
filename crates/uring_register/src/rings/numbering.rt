//! In which steps a ring gets a number in its thread, by one row of a list. io_uring_register(2), IORING_REGISTER_RING_FDS.

ghost use Rattle.std.specs.Prelude.{◌≡◌};
ghost use Rattle.uring_register.specs.Rings.Numbering as spec;

/// What is done by a row of a list.
#[derive(Clone, Copy, Drop)]
pub enum RowStage {
    /// It is read.
    Reads,

    /// It is looked at, and at the descriptor that it names.
    Judges,

    /// A number is looked for that is free.
    Places,

    /// The ring gets it.
    Fills,

    /// It is told in the row.
    Tells,
}

/// How a row goes on.
#[derive(Clone, Copy, Drop)]
pub enum RowOnto {
    Does(RowStage),

    /// It fails with this.
    Fails(i32),

    /// It fails with this, and the ring loses its number again.
    Empties(i32),

    IsDone,
}

/// What a row does after this, which came to `res`. `None`: at first.
pub fn next_of_row(last: Option<RowStage>, res: i32) -> RowOnto
    ensures { result ≡ spec.next_of_row last res }
{
    if res < 0 {
        if has_filled(last) {
            RowOnto::Empties(res)
        } else {
            RowOnto::Fails(res)
        }
    } else {
        after_row(last)
    }
}

fn after_row(last: Option<RowStage>) -> RowOnto
    ensures { result ≡ spec.after_row last }
{
    match last {
        None => RowOnto::Does(RowStage::Reads),
        Some(RowStage::Reads) => RowOnto::Does(RowStage::Judges),
        Some(RowStage::Judges) => RowOnto::Does(RowStage::Places),
        Some(RowStage::Places) => RowOnto::Does(RowStage::Fills),
        Some(RowStage::Fills) => RowOnto::Does(RowStage::Tells),
        Some(RowStage::Tells) => RowOnto::IsDone,
    }
}

fn has_filled(last: Option<RowStage>) -> bool
    ensures { result ≡ spec.has_filled last }
{
    matches!(last, Some(RowStage::Tells))
}
