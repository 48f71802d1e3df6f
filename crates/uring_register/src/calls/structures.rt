//! The structures that calls of io_uring_register(2) and io_uring_setup(2) read, as they stand in memory, and which of their fields are reserved and must be 0. io_uring_register(2), DESCRIPTION; <linux/io_uring.h>.

ghost use Rattle.std.specs.Prelude.{◌≡◌};
ghost use Rattle.std.specs.List.{list_any};
ghost use Rattle.uring_register.specs.Calls.Structures as spec;

use crate::calls::call::Content;

/// A table that is registered: `struct io_uring_rsrc_register`.
#[repr(C)]
#[derive(Clone, Copy, Drop)]
pub struct TableForm {
    pub nr: u32,
    pub flags: u32,
    pub resv2: u64,
    pub data: u64,
    pub tags: u64,
}

/// An update of one: `struct io_uring_rsrc_update2`.
#[repr(C)]
#[derive(Clone, Copy, Drop)]
pub struct UpdateForm {
    pub offset: u32,
    pub resv: u32,
    pub data: u64,
    pub tags: u64,
    pub nr: u32,
    pub resv2: u32,
}

/// An update of files alone: `struct io_uring_files_update`.
#[repr(C)]
#[derive(Clone, Copy, Drop)]
pub struct FilesForm {
    pub offset: u32,
    pub resv: u32,
    pub fds: u64,
}

/// A cancel: `struct io_uring_sync_cancel_reg`.
#[repr(C)]
#[derive(Clone, Copy, Drop)]
pub struct CancelForm {
    pub addr: u64,
    pub fd: i32,
    pub flags: u32,
    pub seconds: i64,
    pub nanoseconds: i64,

    /// Its lowest byte is the code of an operation.
    pub pad: u64,

    pub second_pad: u64,
    pub third_pad: u64,
    pub fourth_pad: u64,
}

/// A ring of provided buffers: `struct io_uring_buf_reg`.
#[repr(C)]
#[derive(Clone, Copy, Drop)]
pub struct RingForm {
    pub ring_addr: u64,
    pub ring_entries: u32,
    pub bgid: u16,
    pub pad: u16,
    pub resv: u64,
    pub second_resv: u64,
    pub third_resv: u64,
}

/// A range of slots that are given out: `struct io_uring_file_index_range`.
#[repr(C)]
#[derive(Clone, Copy, Drop)]
pub struct RangeForm {
    pub off: u32,
    pub len: u32,
    pub resv: u64,
}

/// The first 40 bytes of a set-up's parameters: `struct io_uring_params`.
#[repr(C)]
#[derive(Clone, Copy, Drop)]
pub struct ParametersForm {
    pub sq_entries: u32,
    pub cq_entries: u32,
    pub flags: u32,
    pub sq_thread_cpu: u32,
    pub sq_thread_idle: u32,
    pub features: u32,
    pub wq_fd: u32,
    pub resv: u32,
    pub second_resv: u32,
    pub third_resv: u32,
}

/// What is judged of a table that is registered.
pub fn content_of_table(form: &TableForm) -> Content
    ensures { result ≡ spec.content_of_table form.now }
{
    Content {
        nr: form.nr,
        flags: form.flags,
        has_reserved: form.resv2 != 0,
        has_data: form.data != 0,
    }
}

/// What is judged of an update of one.
pub fn content_of_update(form: &UpdateForm) -> Content
    ensures { result ≡ spec.content_of_update form.now }
{
    Content {
        nr: form.nr,
        flags: 0,
        has_reserved: form.resv != 0 || form.resv2 != 0,
        has_data: false,
    }
}

/// What is judged of an update of files alone, of so many.
pub fn content_of_files(form: &FilesForm, count: u32) -> Content
    ensures { result ≡ spec.content_of_files form.now count }
{
    Content {
        nr: count,
        flags: 0,
        has_reserved: form.resv != 0,
        has_data: false,
    }
}

/// What is judged of a cancel.
pub fn content_of_cancel(form: &CancelForm) -> Content
    ensures { result ≡ spec.content_of_cancel form.now }
{
    let is_padded = form.pad > 255 || form.second_pad != 0;
    Content {
        nr: 0,
        flags: form.flags,
        has_reserved: is_padded || form.third_pad != 0 || form.fourth_pad != 0,
        has_data: false,
    }
}

/// What is judged of a probe, which is all of its bytes. `struct io_uring_probe`, with its rows.
pub fn content_of_probe(bytes: &[u8]) -> Content
    ensures { result ≡ spec.content_of_probe bytes.now }
{
    Content {
        nr: 0,
        flags: 0,
        has_reserved: are_set(bytes),
        has_data: false,
    }
}

/// Whether any byte isn't 0.
fn are_set(bytes: &[u8]) -> bool
    ensures { result ≡ list_any spec.is_set bytes.now }
{
    bytes.iter().any(|byte| *byte != 0)
}

/// Whether a reserved field of a ring of provided buffers isn't 0, which is to be registered, or `goes`.
pub fn ring_has_reserved(form: &RingForm, goes: bool) -> bool
    ensures { result ≡ spec.ring_has_reserved form.now goes }
{
    let resv = if goes {
        form.resv / 0x1_0000_0000
    } else {
        form.resv
    };
    form.pad != 0 || resv != 0 || form.second_resv != 0 || form.third_resv != 0
}

/// Whether a reserved field of a range isn't 0.
pub fn range_has_reserved(form: &RangeForm) -> bool
    ensures { result ≡ spec.range_has_reserved form.now }
{
    form.resv != 0
}

/// Whether a reserved field of a set-up's parameters isn't 0.
pub fn parameters_have_reserved(form: &ParametersForm) -> bool
    ensures { result ≡ spec.parameters_have_reserved form.now }
{
    form.resv != 0 || form.second_resv != 0 || form.third_resv != 0
}
