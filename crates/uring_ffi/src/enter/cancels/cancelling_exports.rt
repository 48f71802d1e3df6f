//! What is done with a request that a cancel has found, and where the file is looked for that it names, for C: functions of `c/include/wulgach_cancel.h`.
ghost use Rattle.std.specs.Prelude.{◌≡◌, List};
ghost use Rattle.uring_operations.specs.declared.requests.act.Fact.{Fact};
ghost use Rattle.uring_operations.specs.Requests.Courses.{KeepsCourse};
ghost use Rattle.uring_operations.specs.Requests.Cancelling as spec;
ghost use Rattle.uring_enter.specs.Cancels.Seeking as seeking;
ghost use Rattle.uring_ffi.specs.Enter.Cancels.CancellingForm.{word_of_cancelling, word_of_sought_file};

use crate::enter::going_on::duty_exports::bit;
use uring_enter::{Sought, file_of};
use uring_operations::Course;

/// Where the file is looked for that a cancel names.
#[unsafe(no_mangle)]
pub extern "C" fn wulgach_file_sought(sought: &Sought) -> u32
    ensures { result ≡ word_of_sought_file (seeking.file_of sought.now) }
{
    file_of(sought) as u32
}

/// What is done with a request that a cancel has found, as a set of steps.
#[unsafe(no_mangle)]
pub extern "C" fn wulgach_course_steps_at_cancel(course: &Course) -> u32
    ensures { (log : List Fact) → KeepsCourse log course.now → result ≡ word_of_cancelling (spec.at_cancel log) }
{
    let steps = course.steps_at_cancel();
    bit(1, steps.rouses)
        | bit(2, steps.looks_again)
        | bit(4, steps.stops_time)
        | bit(8, steps.marks)
}
