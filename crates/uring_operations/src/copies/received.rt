//! What is told of a message that was received, where, and in which order. recvmsg(2); io_uring_prep_recvmsg_multishot(3).

ghost use Rattle.std.specs.Prelude.{◌≡◌, ◌-◌, ◌<◌};
ghost use Rattle.uring_operations.specs.Copies.Receipts as spec;

/// What came with a message.
#[repr(C)]
#[derive(Clone, Copy, Drop)]
pub struct Received {
    /// How many bytes of control data came.
    pub control_size: u64,

    /// How many bytes its address has,
    pub name_size: u32,

    /// and its flags. MSG_TRUNC and the like.
    pub flags: u32,

    /// Its entry names a place for the address.
    pub has_name: bool,
}

/// A field of the entry's message that is told: `struct msghdr`.
#[repr(C)]
#[derive(Clone, Copy, Drop)]
pub struct Field {
    pub value: u64,

    /// In bytes from the beginning of the message,
    pub offset: u32,

    /// of which it has so many.
    pub size: u32,
}

/// What stands in front of a message in the buffer of a receive that goes on: `struct io_uring_recvmsg_out`.
#[repr(C)]
#[derive(Clone, Copy, Drop)]
pub struct Front {
    pub name_size: u32,

    pub control_size: u32,

    /// How many bytes the message has.
    pub size: u32,

    pub flags: u32,
}

/// The field that is told next, after so many. `None`: all were told.
pub fn next_told(received: &Received, told: u32) -> Option<Field>
    ensures { result ≡ spec.next_told received.now told }
{
    if !received.has_name {
        after_name(received, told)
    } else if told == 0 {
        Some(field_of(received.name_size as u64, 8, 4))
    } else {
        after_name(received, told - 1)
    }
}

/// The one that is told next, after so many others than the size of the address.
fn after_name(received: &Received, told: u32) -> Option<Field>
    ensures { result ≡ spec.nth (spec.after_name received.now) told }
{
    match told {
        0 => Some(field_of(received.flags as u64, 48, 4)),
        1 => Some(field_of(received.control_size, 40, 8)),
        _ => None,
    }
}

fn field_of(value: u64, offset: u32, size: u32) -> Field
    ensures { result ≡ spec.field_of value offset size }
{
    Field {
        value,
        offset,
        size,
    }
}

/// What stands in front of a message of so many bytes, in the buffer of a receive that goes on.
pub fn front_of(received: &Received, size: u32) -> Front
    ensures { result ≡ spec.front_of received.now size }
{
    Front {
        name_size: received.name_size,
        control_size: received.control_size.min(0xffff_ffff) as u32,
        size,
        flags: received.flags,
    }
}
