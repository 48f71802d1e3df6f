//! Which rings a set-up makes, and with which error it refuses others. io_uring_setup(2).

ghost use Rattle.std.specs.Prelude.{◌≡◌, false, MatchOption, MatchResult};
ghost use Rattle.uring_entry.specs.Setup.{IsSetupFor};
ghost use Rattle.uring_enter.specs.Rings.SettingUp as spec;
ghost use Rattle.uring_enter.specs.Rings.SettingUp.{AsksWhatMatters};

use uring_entry::Setup;

/// What a set-up asks for, and what is so of what it names.
#[repr(C)]
#[derive(Clone, Copy, Drop)]
pub struct AskedRing {
    /// How many entries the submission ring is to have.
    pub entries: u32,

    /// And the completion ring, with IORING_SETUP_CQSIZE.
    pub cq_entries: u32,

    pub flags: u32,

    /// With IORING_SETUP_SQ_AFF, the processor on which the ring's thread is to run is online.
    pub is_online: bool,

    /// A reserved field isn't 0.
    pub has_reserved: bool,

    /// With IORING_SETUP_ATTACH_WQ, the descriptor is open.
    pub is_open: bool,

    /// And a ring.
    pub is_ring: bool,

    /// Which has a thread. IORING_SETUP_SQPOLL.
    pub has_thread: bool,

    /// Its requests are kept by Linux's rules. Else they are by the manual pages'.
    pub linux: bool,
}

/// The sizes and the rules of the ring that is made, or the error with which it is refused.
pub fn set_up(asked: &AskedRing) -> Result<Setup, i32>
    ensures { MatchResult result (spec.IsMade asked.now) (spec.IsRefusedWith asked.now) }
{
    if is_malformed(asked) {
        return Err(-22);
    }
    let Some(sizes) = sizes(asked) else {
        return Err(-22);
    };
    let fault = place_fault(asked);
    if fault < 0 {
        Err(fault)
    } else {
        Ok(with_rules(asked, sizes))
    }
}

/// A set-up by the rules that are asked for.
fn with_rules(asked: &AskedRing, sizes: Setup) -> Setup
    requires { sizes.linux ≡ false }
    ensures { result ≡ record sizes { linux = asked.now.linux } }
{
    if asked.linux { sizes.linux() } else { sizes }
}

/// Whether a reserved field or the flags are other than they may be.
fn is_malformed(asked: &AskedRing) -> bool
    ensures { result ≡ spec.is_malformed asked.now }
{
    asked.has_reserved || asked.flags & !0x3fff != 0 || has_lone_flags(asked.flags)
}

/// Whether flags stand without those that they want, or beside one that they can't.
fn has_lone_flags(flags: u32) -> bool
    ensures { result ≡ spec.has_lone_flags flags }
{
    if flags & 2 != 0 {
        flags & 8960 != 0
    } else {
        flags & 512 != 0 && flags & 8448 == 0 || flags & 8192 != 0 && flags & 4096 == 0
    }
}

/// The sizes that are asked for, unless they are refused.
fn sizes(asked: &AskedRing) -> Option<Setup>
    ensures { MatchOption result (spec.HasNoSizes asked.now)
        (IsSetupFor (spec.asked_sq asked.now) (spec.asked_cq asked.now) 1 0) }
{
    Setup::new(asked_sq(asked), asked_cq(asked), 1, 0).ok()
}

fn asked_sq(asked: &AskedRing) -> u32
    ensures { result ≡ spec.asked_sq asked.now }
{
    clamped(asked.flags, asked.entries, 4096)
}

fn asked_cq(asked: &AskedRing) -> Option<u32>
    ensures { result ≡ spec.asked_cq asked.now }
{
    if asked.flags & 8 != 0 {
        Some(clamped(asked.flags, asked.cq_entries, 8192))
    } else {
        None
    }
}

/// A size, at most the largest if the flags say so.
fn clamped(flags: u32, size: u32, most: u32) -> u32
    ensures { result ≡ spec.clamped flags size most }
{
    if flags & 16 != 0 {
        size.min(most)
    } else {
        size
    }
}

/// The fault of the ring whose workers or thread are to be shared, or else of the processor, or 0.
fn place_fault(asked: &AskedRing) -> i32
    ensures { result ≡ spec.place_fault asked.now }
{
    let fault = sharing_fault(asked);
    if fault < 0 {
        fault
    } else if has_bad_processor(asked) {
        -22
    } else {
        0
    }
}

fn sharing_fault(asked: &AskedRing) -> i32
    ensures { result ≡ spec.sharing_fault asked.now }
{
    if asked.flags & 32 == 0 {
        0
    } else if !asked.is_open {
        -6
    } else if !asked.is_ring || asked.flags & 2 != 0 && !asked.has_thread {
        -22
    } else {
        0
    }
}

/// Whether a processor is named without a thread, or one that isn't online for a thread of the ring's own.
fn has_bad_processor(asked: &AskedRing) -> bool
    ensures { result ≡ spec.has_bad_processor asked.now }
{
    let is_named = asked.flags & 4 != 0;
    is_named
        && if asked.flags & 2 != 0 {
            asked.flags & 32 == 0 && !asked.is_online
        } else {
            true
        }
}

/// Whether a ring with these flags has a thread that takes its entries: then a call submits by rounds. IORING_SETUP_SQPOLL.
pub fn has_thread(flags: u32) -> bool
    ensures { result ≡ spec.has_thread flags }
{
    flags & 2 != 0
}

/// Whether it is asked of a set-up with these flags whether the processor is online that it names: it matters to no other. Our own rule.
pub fn asks_processor(flags: u32) -> bool
    ensures { result ≡ spec.asks_processor flags }
{
    flags & 4 != 0 && flags & 2 != 0 && flags & 32 == 0
}

/// Whether it is asked of one what its descriptor is, by which another ring is named. Our own rule.
pub fn asks_shared(flags: u32) -> bool
    ensures { result ≡ spec.asks_shared flags }
{
    flags & 32 != 0
}

/// What isn't asked of a set-up makes no difference.
pub fn asks_of_set_up_what_matters()
    ensures { AsksWhatMatters }
{}

/// In how many cells of a ring with these flags an entry stands. IORING_SETUP_SQE128.
pub fn entry_cells(flags: u32) -> u32
    ensures { result ≡ spec.entry_cells flags }
{
    if flags & 1024 != 0 { 2 } else { 1 }
}

/// And a completion. IORING_SETUP_CQE32.
pub fn completion_cells(flags: u32) -> u32
    ensures { result ≡ spec.completion_cells flags }
{
    if flags & 2048 != 0 { 2 } else { 1 }
}

/// What a ring can do, as its set-up tells it, whose rings stand in one mapping or in two.
pub fn features(is_one_mapping: bool) -> u32
    ensures { result ≡ spec.features is_one_mapping }
{
    if is_one_mapping { 40895 } else { 40894 }
}
