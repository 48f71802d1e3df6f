//! Which fields of the structures that calls read are reserved, and what is judged of these, for C: functions of `c/include/wulgach_register.h`.
ghost use Rattle.std.specs.Prelude.{◌≡◌};
ghost use Rattle.uring_register.specs.Calls.Structures as spec;

use uring_register::{
    CancelForm, Content, FilesForm, ParametersForm, RingForm, TableForm, UpdateForm,
    content_of_cancel, content_of_files, content_of_probe, content_of_table, content_of_update,
    parameters_have_reserved, ring_has_reserved,
};

/// Writes what is judged of a table that is registered.
#[unsafe(no_mangle)]
pub extern "C" fn wulgach_content_of_table(form: &TableForm, content: &mut Content)
    ensures { content.new ≡ spec.content_of_table form.now }
{
    *content = content_of_table(form);
}

/// Writes what is judged of an update of one.
#[unsafe(no_mangle)]
pub extern "C" fn wulgach_content_of_update(form: &UpdateForm, content: &mut Content)
    ensures { content.new ≡ spec.content_of_update form.now }
{
    *content = content_of_update(form);
}

/// Writes what is judged of an update of files alone, of so many.
#[unsafe(no_mangle)]
pub extern "C" fn wulgach_content_of_files(form: &FilesForm, count: u32, content: &mut Content)
    ensures { content.new ≡ spec.content_of_files form.now count }
{
    *content = content_of_files(form, count);
}

/// Writes what is judged of a cancel.
#[unsafe(no_mangle)]
pub extern "C" fn wulgach_content_of_cancel(form: &CancelForm, content: &mut Content)
    ensures { content.new ≡ spec.content_of_cancel form.now }
{
    *content = content_of_cancel(form);
}

/// Writes what is judged of a probe, of which these are all bytes.
#[unsafe(no_mangle)]
pub extern "C" fn wulgach_content_of_probe(bytes: &[u8], content: &mut Content)
    ensures { content.new ≡ spec.content_of_probe bytes.now }
{
    *content = content_of_probe(bytes);
}

/// Whether a reserved field of a ring of provided buffers isn't 0, which is to be registered, or `goes`.
#[unsafe(no_mangle)]
pub extern "C" fn wulgach_ring_has_reserved(form: &RingForm, goes: bool) -> bool
    ensures { result ≡ spec.ring_has_reserved form.now goes }
{
    ring_has_reserved(form, goes)
}

/// Whether a reserved field of a set-up's parameters isn't 0.
#[unsafe(no_mangle)]
pub extern "C" fn wulgach_parameters_have_reserved(form: &ParametersForm) -> bool
    ensures { result ≡ spec.parameters_have_reserved form.now }
{
    parameters_have_reserved(form)
}
