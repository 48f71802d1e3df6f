//! In which steps a file is put into a slot that is free, by one row of a list. io_uring_enter(2), IORING_OP_FILES_UPDATE with IORING_FILE_INDEX_ALLOC.

ghost use Rattle.std.specs.Prelude.{◌≡◌};
ghost use Rattle.uring_register.specs.Tables.Placing as spec;

/// What is done by a row of a list.
#[derive(Clone, Copy, Drop)]
pub enum PlacingStage {
    /// It is read.
    Reads,

    /// The file of its descriptor is made.
    Makes,

    /// A slot that is free gets it.
    Puts,

    /// The slot is told in the row.
    Tells,
}

/// How a row goes on.
#[derive(Clone, Copy, Drop)]
pub enum PlacingOnto {
    Does(PlacingStage),

    /// It fails with this.
    Fails(i32),

    /// It fails with this, and its file is taken out of the slot again.
    TakesOut(i32),

    IsDone,
}

/// What a row does after this, which came to `res`. `None`: at first.
pub fn next_of_placing(last: Option<PlacingStage>, res: i32) -> PlacingOnto
    ensures { result ≡ spec.next_of_placing last res }
{
    if res < 0 {
        if has_put(last) {
            PlacingOnto::TakesOut(res)
        } else {
            PlacingOnto::Fails(res)
        }
    } else {
        after_stage(last)
    }
}

fn after_stage(last: Option<PlacingStage>) -> PlacingOnto
    ensures { result ≡ spec.after_stage last }
{
    match last {
        None => PlacingOnto::Does(PlacingStage::Reads),
        Some(PlacingStage::Reads) => PlacingOnto::Does(PlacingStage::Makes),
        Some(PlacingStage::Makes) => PlacingOnto::Does(PlacingStage::Puts),
        Some(PlacingStage::Puts) => PlacingOnto::Does(PlacingStage::Tells),
        Some(PlacingStage::Tells) => PlacingOnto::IsDone,
    }
}

fn has_put(last: Option<PlacingStage>) -> bool
    ensures { result ≡ spec.has_put last }
{
    matches!(last, Some(PlacingStage::Tells))
}
