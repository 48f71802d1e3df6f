//! What a program maps of a ring, in which order a set-up is refused, and when a ring is freed. io_uring_setup(2).

ghost use Rattle.std.specs.Prelude.{◌≡◌};
ghost use Rattle.uring_enter.specs.Rings.Ringing as spec;
ghost use Rattle.uring_enter.specs.Rings.Ringing.{DropsWhatIsMade, TellsBeforeItOpens};

/// A part of a ring's memory that is mapped by itself.
#[derive(Clone, Copy, Drop)]
pub enum Region {
    /// Both rings.
    Rings,

    /// The table of entries.
    Entries,
}

/// What a set-up does.
#[derive(Clone, Copy, Drop)]
pub enum Stage {
    /// It reads the parameters.
    Reads,

    /// It asks the kernel, where the ring is strict.
    AsksKernel,

    /// It makes the ring.
    Makes,

    /// It tells the parameters.
    Tells,

    /// It opens the ring's descriptor.
    Opens,
}

/// How a set-up goes on.
#[derive(Clone, Copy, Drop)]
pub enum Onto {
    Does(Stage),

    /// It fails with this.
    Fails(i32),

    /// It fails with this, and the ring is dropped.
    Drops(i32),

    IsDone,
}

/// What becomes of a ring.
#[derive(Clone, Copy, Drop)]
pub enum Fate {
    Stays,

    /// Whether a descriptor is open on it is to be asked.
    Asks,

    /// It is freed.
    Goes,
}

/// The part of a ring's memory at an offset. `None`: there is none.
pub fn region_of(offset: u64) -> Option<Region>
    ensures { result ≡ spec.region_of offset }
{
    match offset & 0xf800_0000 {
        0 | 0x800_0000 => Some(Region::Rings),
        0x1000_0000 => Some(Region::Entries),
        _ => None,
    }
}

/// What a set-up does after this, which came to `res`. `None`: at first.
pub fn next_stage(last: Option<Stage>, res: i32) -> Onto
    ensures { result ≡ spec.next_of last res }
{
    if res < 0 {
        if has_made(last) {
            Onto::Drops(res)
        } else {
            Onto::Fails(res)
        }
    } else {
        after_stage(last)
    }
}

fn after_stage(last: Option<Stage>) -> Onto
    ensures { result ≡ spec.after_stage last }
{
    match last {
        None => Onto::Does(Stage::Reads),
        Some(Stage::Reads) => Onto::Does(Stage::AsksKernel),
        Some(Stage::AsksKernel) => Onto::Does(Stage::Makes),
        Some(Stage::Makes) => Onto::Does(Stage::Tells),
        Some(Stage::Tells) => Onto::Does(Stage::Opens),
        Some(Stage::Opens) => Onto::IsDone,
    }
}

fn has_made(last: Option<Stage>) -> bool
    ensures { result ≡ spec.has_made last }
{
    matches!(last, Some(Stage::Tells | Stage::Opens))
}

/// What becomes of a ring with so many calls on it, of this process or another, once one of its descriptors is closed or another ring is made. `known`: whether a descriptor of the process is open on it, if that was asked.
pub fn fate_of(is_own: bool, calls: u32, known: Option<bool>) -> Fate
    ensures { result ≡ spec.fate_of is_own calls known }
{
    if !is_own || calls != 0 {
        return Fate::Stays;
    }
    match known {
        None => Fate::Asks,
        Some(true) => Fate::Stays,
        Some(false) => Fate::Goes,
    }
}

/// What holds of every ring that is made.
///
/// - `drops_what_is_made`: a set-up that fails drops the ring exactly if one was made before.
/// - `tells_before_it_opens`: the parameters are told just before the descriptor is opened.
pub fn ringing_laws()
    ensures drops_what_is_made { DropsWhatIsMade }
    ensures tells_before_it_opens { TellsBeforeItOpens }
{}
