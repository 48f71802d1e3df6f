//! Where the parts of a message stand in a buffer, of a receive that goes on, and with which flags a message is sent or received. io_uring_prep_recvmsg_multishot(3), struct io_uring_recvmsg_out; send(2).

ghost use Rattle.std.specs.Prelude.{◌≡◌};
ghost use Rattle.uring_operations.specs.Calls.Layouts as spec;

use crate::entries::kind::is_send;
use crate::entries::submission::Submission;

/// Where the parts of a message stand, in bytes from the beginning of its buffer.
#[repr(C)]
#[derive(Clone, Copy, Drop)]
pub struct Layout {
    /// Its address,
    pub name: u64,

    /// its control data,
    pub control: u64,

    /// and its bytes,
    pub bytes: u64,

    /// of which so many have room.
    pub room: u64,

    /// There is room for an address: the call is to tell its sender.
    pub has_name: bool,

    /// There is room for control data: the call is to tell them.
    pub has_control: bool,
}

/// How many bytes of the message have room in a buffer of this size, after what stands in front: 16 bytes, and room for so many bytes of an address and of control data. `None`: that has no room itself.
pub fn room_for(name: u32, control: u64, size: u64) -> Option<u64>
    ensures { result ≡ spec.room_for name control size }
{
    let after_name = size.checked_sub(16)?.checked_sub(name as u64)?;
    after_name.checked_sub(control)
}

/// Where the parts of a message stand in a buffer of this size, with room for so many bytes of an address and of control data. `None`: that has no room itself.
pub fn layout_of(name: u32, control: u64, size: u64) -> Option<Layout>
    ensures { result ≡ spec.layout_of name control size }
{
    match room_for(name, control, size) {
        None => None,
        Some(room) => Some(Layout {
            name: 16,
            control: 16 + name as u64,
            bytes: size - room,
            room,
            has_name: name > 0,
            has_control: control > 0,
        }),
    }
}

impl Layout {
    /// How much of the buffer has something after a message of so many bytes.
    pub fn filled(&self, came: u32) -> u64
        ensures { result ≡ spec.filled self.now came }
    {
        self.bytes.saturating_add((came as u64).min(self.room))
    }
}

/// The flags with which the call of a message is made.
pub fn call_flags(entry: &Submission) -> u32
    ensures { result ≡ spec.call_flags entry.now }
{
    entry.op_flags | if is_send(entry.opcode) { 0x4040 } else { 0x40 }
}
