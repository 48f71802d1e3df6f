//! What a message to another ring does. io_uring_enter(2), IORING_OP_MSG_RING.

ghost use Rattle.std.specs.Prelude.{◌≡◌};
ghost use Rattle.uring_enter.specs.Rings.Messages as spec;
ghost use Rattle.uring_enter.specs.Rings.Messages.{PassesWhatCanBeTold};

use uring_operations::Submission;

/// The ring that a message goes to, as its sender finds it.
#[repr(C)]
#[derive(Clone, Copy, Drop)]
pub struct Receiver {
    /// The entry names an open file.
    pub is_open: bool,

    /// That is a ring.
    pub is_ring: bool,

    /// It is the sender's own.
    pub is_sender: bool,

    /// It was set up disabled, and isn't enabled.
    pub is_disabled: bool,
}

/// What a message does.
#[derive(Clone, Copy, Drop)]
pub enum Sending {
    /// Nothing: it ends with this error.
    Fails(i32),

    /// It posts a completion to the other ring, and ends with 0.
    Posts,

    /// It passes a registered file to the other ring's table, and ends with what comes of that.
    Passes,
}

/// What is done for a message, in the order in which it stands here, until a step fails, with whose fault it ends.
#[derive(Clone, Copy, Drop)]
pub struct MessageSteps {
    /// There is memory for what the other ring is told.
    pub has_memory: bool,

    /// The file is looked for in the sender's own table.
    pub finds_file: bool,

    /// It is put into the other ring's table.
    pub passes_file: bool,

    /// The other ring is told, if it is to be.
    pub tells: bool,
}

/// A completion that is posted to another ring.
#[repr(C)]
#[derive(Clone, Copy, Drop)]
pub struct Message {
    pub user_data: u64,

    /// Its result.
    pub res: i32,

    /// Its flags.
    pub flags: u32,
}

/// Whether the entry of a message names its ring by a slot of registered files, or by a descriptor. io_uring_enter(2), IOSQE_FIXED_FILE.
pub fn is_by_slot(entry: &Submission) -> bool
    ensures { result ≡ spec.is_by_slot entry.now }
{
    entry.flags & 1 != 0
}

/// Whether the file that the entry of a message names may be a ring's: a registered one never is. io_uring_register(2), IORING_REGISTER_FILES.
pub fn may_be_ring(entry: &Submission) -> bool
    ensures { result ≡ spec.may_be_ring entry.now }
{
    !is_by_slot(entry)
}

/// What a message to this ring does. The first fault counts.
pub fn sending_of(entry: &Submission, to: Receiver) -> Sending
    ensures { result ≡ spec.sending_of entry.now to }
{
    if !to.is_open {
        Sending::Fails(-9)
    } else if !to.is_ring {
        Sending::Fails(-77)
    } else {
        match entry.addr & 0xffff_ffff {
            0 => sending_data(entry, to),
            1 => sending_file(entry, to),
            _ => Sending::Fails(-22),
        }
    }
}

fn sending_data(entry: &Submission, to: Receiver) -> Sending
    ensures { result ≡ spec.sending_data entry.now to }
{
    if names_file(entry) {
        Sending::Fails(-22)
    } else if to.is_disabled {
        Sending::Fails(-77)
    } else {
        Sending::Posts
    }
}

/// It has something that belongs to files alone.
fn names_file(entry: &Submission) -> bool
    ensures { result ≡ spec.names_file entry.now }
{
    let has_slot = entry.file_index != 0 && entry.op_flags & 2 == 0;
    entry.addr3 & 0xffff_ffff != 0 || entry.op_flags & 1 != 0 || has_slot
}

fn sending_file(entry: &Submission, to: Receiver) -> Sending
    ensures { result ≡ spec.sending_file entry.now to }
{
    if entry.len != 0 || to.is_sender {
        Sending::Fails(-22)
    } else if to.is_disabled {
        Sending::Fails(-77)
    } else {
        Sending::Passes
    }
}

/// What is done for a message that does this.
pub fn message_steps(sending: Sending) -> MessageSteps
    ensures { result ≡ spec.message_steps sending }
{
    let is_sent = !matches!(sending, Sending::Fails(_));
    MessageSteps {
        has_memory: is_sent,
        finds_file: matches!(sending, Sending::Passes),
        passes_file: matches!(sending, Sending::Passes),
        tells: is_sent,
    }
}

/// A file is passed only where it was found, and there is memory for what the other ring is told of it.
pub fn passes_what_can_be_told()
    ensures { PassesWhatCanBeTold }
{}

/// What the other ring is told, where a message does what it does with this result. `None`: nothing.
pub fn told_of(entry: &Submission, res: i32) -> Option<Message>
    ensures { result ≡ spec.told_of entry.now res }
{
    if res < 0 || entry.op_flags & 1 != 0 {
        None
    } else if entry.addr & 0xffff_ffff == 0 {
        Some(message_of(entry))
    } else {
        Some(Message {
            user_data: entry.off,
            res,
            flags: 0,
        })
    }
}

fn message_of(entry: &Submission) -> Message
    ensures { result ≡ spec.message_of entry.now }
{
    let flags = if entry.op_flags & 2 != 0 {
        entry.file_index
    } else {
        0
    };
    Message {
        user_data: entry.off,
        res: entry.len.cast_signed(),
        flags,
    }
}
